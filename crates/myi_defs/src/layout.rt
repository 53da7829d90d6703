//! What the form of a header fixes: lengths, the mark, the limits of definitions, and where the parts stand
//! whose place depends on how many keys, page sizes and key parts there are.
ghost use Rattle.std.specs.Prelude.{◌≡◌, ◌≤◌, ◌<◌, ◌^◌};
ghost use Rattle.myi_defs.specs.Layout as spec;

/// How many bytes of the header every index file has. The state follows them.
pub const FRONT_LENGTH: usize = 24;
/// The length of the base section, in bytes. It follows the state.
pub const BASE_LENGTH: usize = 100;
/// What a header says of the length of the state. It has as many bytes without those of its keys, page sizes
/// and key parts, and with the first 24.
pub const STATE_LENGTH: u16 = 176;
/// Where the roots of the trees stand in a header.
pub const ROOTS_PLACE: usize = 124;
/// The last bytes of the base section of an index file that this project wrote: "RK", and the version
/// of its page format.
pub const MARK: [u8; 6] = [0x52, 0x4B, 2, 0, 0, 0];
/// Where the mark stands in the base section.
pub const MARK_PLACE: usize = 94;
/// Pages stand at multiples of this many bytes.
const PAGE_UNIT: usize = 1024;

/// The most keys of a table.
pub const MOST_KEYS: u8 = 64;
/// The most segments of a key.
pub const MOST_SEGMENTS: u8 = 16;
/// The most fields of a table.
pub const MOST_FIELDS: u16 = 4096;

/// Where the parts of a header stand whose place depends on its counts.
#[derive(Clone, Copy)]
pub struct Layout {
    /// The first free page of each size, behind the roots.
    pub key_del: usize,
    /// The map of the keys in use.
    pub key_map: usize,
    pub recover_time: usize,
    /// The base section, behind the state.
    pub base: usize,
}

impl Layout {
    /// By the numbers of keys, of page sizes and of key parts.
    pub fn by(keys: u8, page_sizes: u8, key_parts: u16) -> Layout
        ensures { result ≡ spec.layout_by keys page_sizes key_parts }
    {
        let key_del = ROOTS_PLACE + 8 * keys as usize;
        let key_map = key_del + 8 * page_sizes as usize + 12;
        Layout {
            key_del,
            key_map,
            recover_time: key_map + 16,
            base: base_place(keys as u32, page_sizes as u32, key_parts as u32) as usize,
        }
    }
}

/// Where the base section stands.
pub fn base_place(keys: u32, page_sizes: u32, key_parts: u32) -> u32
    requires keys { keys ≤ 65535 }
    requires sizes { page_sizes ≤ 65535 }
    requires parts { key_parts ≤ 65535 }
    ensures value { result ≡ spec.base_place keys page_sizes key_parts }
{
    STATE_LENGTH as u32 + 8 * keys + 8 * page_sizes + 4 * key_parts
}

/// Where the first index page stands, by the length of the header: at the least multiple of 1024 that is not
/// below it.
pub fn first_page_behind(header_length: usize) -> usize
    requires { header_length < 2 ^ 63 }
    ensures value { result ≡ spec.first_page header_length }
    ensures past { header_length ≤ result }
{
    header_length.div_ceil(PAGE_UNIT) * PAGE_UNIT
}

/// The map of so many keys that are all in use: one bit for each.
#[tactic(auto, unfolding(crate::specs::Layout::all_keys))]
pub(crate) fn all_keys(keys: u8) -> u64
    ensures { result ≡ spec.all_keys keys }
{
    match 2u64.checked_pow(keys as u32) {
        Some(all) => all - 1,
        None => u64::MAX,
    }
}
