//! `Script`: a script whose sessions go side by side, the table that it runs on, and what it may print.
//!
//! The texts and the data files were worked out by hand from the rules of rounds.
use crate::runs::{copy_of, files_of, run};
use myi_io::Files;
use myi_memfiles::{MemFiles, MemSink};
use myi_shell::{Gate, OpenGate};
use myisamkit::Status;
use std::alloc::{AllocError, Global};
use std::process::Abort;
use std::test::Fail;
use std::thread::Threads;

/// The parts of a text, one after the other.
pub type Parts = &'static [&'static [u8]];

pub struct Script {
    /// The creating text of the table.
    pub table: &'static [u8],
    /// The script that puts its first rows.
    pub first: &'static [u8],
    /// The option that says which inserts may be concurrent.
    pub option: &'static str,
    pub text: &'static [u8],
    /// The texts that it may print.
    pub prints: &'static [Parts],
    /// The data file that it leaves.
    pub leaves: &'static [u8],
}

/// Static rows of a number and three bytes, without a key.
const PLAIN: &[u8] = b"rows static\nfield normal 1\nfield normal 4\nfield normal 3\n";

/// Static rows of two numbers, each with a unique key.
const KEYED: &[u8] =
    b"rows static\nfield normal 1\nfield normal 4\nfield normal 4\nkey unique\nseg long_int 1 4 0 0 0\nkey unique\nseg long_int 5 4 0 0 0\n";

const PUT: &[u8] = b"1 ok 0\n2 ok 8\n3 ok 16\n";

const NONE: &[u8] = b"rows 0 at 0\n";

const ONE: &[u8] = b"rows 1 at 1\n  0 FF 01000000 616161\n";

const TWO: &[u8] = b"rows 2 at 2\n  0 FF 01000000 616161\n  8 FF 02000000 626262\n";

const THREE: &[u8] =
    b"rows 3 at 3\n  0 FF 01000000 616161\n  8 FF 02000000 626262\n  16 FF 03000000 636363\n";

/// What it prints where the first scan sees no row, and the last one all.
pub const FROM_NONE_TO_ALL: Parts = &[PUT, b"4 ", NONE, b"5 ", THREE];

/// What it prints where the last scan sees all rows.
pub const UP_TO_ALL: &[Parts] = &[
    FROM_NONE_TO_ALL,
    &[PUT, b"4 ", ONE, b"5 ", THREE],
    &[PUT, b"4 ", TWO, b"5 ", THREE],
    &[PUT, b"4 ", THREE, b"5 ", THREE],
];

/// Three inserts beside two scans of another session: each sees a first part of the rows, and the second no shorter one.
pub const INSERTS_BESIDE_SCANS: Script = Script {
    table: PLAIN,
    first: b"",
    option: "--concurrent-insert=1",
    text: b"S1 insert FF #1 'aaa'\nS1 insert FF #2 'bbb'\nS1 insert FF #3 'ccc'\nS2 scan\nS2 scan\n",
    prints: &[
        &[PUT, b"4 ", NONE, b"5 ", NONE],
        &[PUT, b"4 ", NONE, b"5 ", ONE],
        &[PUT, b"4 ", NONE, b"5 ", TWO],
        FROM_NONE_TO_ALL,
        &[PUT, b"4 ", ONE, b"5 ", ONE],
        &[PUT, b"4 ", ONE, b"5 ", TWO],
        &[PUT, b"4 ", ONE, b"5 ", THREE],
        &[PUT, b"4 ", TWO, b"5 ", TWO],
        &[PUT, b"4 ", TWO, b"5 ", THREE],
        &[PUT, b"4 ", THREE, b"5 ", THREE],
    ],
    leaves: b"\xFF\x01\0\0\0aaa\xFF\x02\0\0\0bbb\xFF\x03\0\0\0ccc",
};

const BOTH: &[u8] = b"  0 FF 01000000 0A000000\n  9 FF 02000000 14000000\n";

const THIRD: &[u8] = b"  18 FF 03000000 1E000000\n";

/// Up to the scan of the session without a lock.
const TO_THE_SCAN: &[u8] = b"1 ok\n2 ok 18\n3 rows 2 at 0\n";

/// Behind that scan and the lines of its rows.
const FROM_THE_SCAN: &[u8] = b"6 locked for read\n7 rows 2 at 0\n";

const TO_THE_END: &[u8] =
    b"10 ok\n9 ok 0\n4 rows 2 at 2\n  9 FF 02000000 14000000\n  18 FF 03000000 1E000000\n5 ok 0\n";

/// What it prints where the scan without a lock sees the row that is put beside it.
pub const SCAN_BEHIND_THE_INSERT: Parts = &[
    TO_THE_SCAN,
    BOTH,
    b"8 rows 3 at 1\n",
    BOTH,
    THIRD,
    FROM_THE_SCAN,
    BOTH,
    TO_THE_END,
];

/// A session that holds READ LOCAL, one that inserts beside it and later behind a delete, and one that scans and deletes.
pub const LOCKED_READS: Script = Script {
    table: KEYED,
    first: b"S1 insert FF #1 #10\nS1 insert FF #2 #20\n",
    option: "--concurrent-insert=1",
    text: b"S2 lock read local\nS1 insert FF #3 #30\nS2 range 1 * *\nS1 scan\nS1 insert FF #4 #40\nS2 insert FF #9 #90\nS2 range 1 * *\nS3 scan\nS3 delete 0\nS2 unlock\n",
    prints: &[
        &[
            TO_THE_SCAN,
            BOTH,
            b"8 rows 2 at 0\n",
            BOTH,
            FROM_THE_SCAN,
            BOTH,
            TO_THE_END,
        ],
        SCAN_BEHIND_THE_INSERT,
    ],
    leaves: b"\xFF\x04\0\0\0\x28\0\0\0\xFF\x02\0\0\0\x14\0\0\0\xFF\x03\0\0\0\x1E\0\0\0",
};

/// A table whose first slot is deleted.
const WITH_A_HOLE: &[u8] = b"S1 insert FF #1 'aaa'\nS1 insert FF #2 'bbb'\nS1 delete 0\n";

const BESIDE_A_HOLE: &[u8] =
    b"S2 scan\nS1 insert FF #3 'ccc'\nS1 insert FF #4 'ddd'\nS1 scan\nS1 insert FF #5 'eee'\n";

/// The rows once the hole is filled, and once another is put.
const FILLED: &[u8] = b"  0 FF 03000000 636363\n  8 FF 02000000 626262\n";

const NEXT: &[u8] = b"  16 FF 04000000 646464\n";

/// The row beside the hole, and those that are put at the end.
const OLD: &[u8] = b"  8 FF 02000000 626262\n";

const PAST: &[u8] = b"  16 FF 03000000 636363\n";

const FARTHER: &[u8] = b"  24 FF 04000000 646464\n";

const FILLED_DATA: &[u8] = b"\xFF\x03\0\0\0ccc\xFF\x02\0\0\0bbb\xFF\x04\0\0\0ddd\xFF\x05\0\0\0eee";

/// Two inserts, a scan and another insert, beside a scan of another session, on a table with a hole, by the three settings.
pub const BY_SETTING: [Script; 3] = [
    // Each insert is a write: the first two go before both scans.
    Script {
        table: PLAIN,
        first: WITH_A_HOLE,
        option: "--concurrent-insert=0",
        text: BESIDE_A_HOLE,
        prints: &[&[
            b"2 ok 0\n3 ok 16\n1 rows 3 at 2\n",
            FILLED,
            NEXT,
            b"4 rows 3 at 2\n",
            FILLED,
            NEXT,
            b"5 ok 24\n",
        ]],
        leaves: FILLED_DATA,
    },
    // The first insert fills the hole, and the second one goes beside the scan.
    Script {
        table: PLAIN,
        first: WITH_A_HOLE,
        option: "--concurrent-insert=1",
        text: BESIDE_A_HOLE,
        prints: &[
            &[
                b"2 ok 0\n1 rows 2 at 1\n",
                FILLED,
                b"3 ok 16\n4 rows 3 at 2\n",
                FILLED,
                NEXT,
                b"5 ok 24\n",
            ],
            &[
                b"2 ok 0\n1 rows 3 at 2\n",
                FILLED,
                NEXT,
                b"3 ok 16\n4 rows 3 at 2\n",
                FILLED,
                NEXT,
                b"5 ok 24\n",
            ],
        ],
        leaves: FILLED_DATA,
    },
    // Both go beside the scan, to the end; the last one goes alone, into the hole.
    Script {
        table: PLAIN,
        first: WITH_A_HOLE,
        option: "--concurrent-insert=2",
        text: BESIDE_A_HOLE,
        prints: &[
            &[
                b"1 rows 1 at 0\n",
                OLD,
                b"2 ok 16\n3 ok 24\n4 rows 3 at 2\n",
                OLD,
                PAST,
                FARTHER,
                b"5 ok 0\n",
            ],
            &[
                b"1 rows 2 at 1\n",
                OLD,
                PAST,
                b"2 ok 16\n3 ok 24\n4 rows 3 at 2\n",
                OLD,
                PAST,
                FARTHER,
                b"5 ok 0\n",
            ],
            &[
                b"1 rows 3 at 2\n",
                OLD,
                PAST,
                FARTHER,
                b"2 ok 16\n3 ok 24\n4 rows 3 at 2\n",
                OLD,
                PAST,
                FARTHER,
                b"5 ok 0\n",
            ],
        ],
        leaves: b"\xFF\x05\0\0\0eee\xFF\x02\0\0\0bbb\xFF\x03\0\0\0ccc\xFF\x04\0\0\0ddd",
    },
];

// The parts as one text.
fn joined(alloc: Global, parts: Parts) -> Result<Vec<u8>, AllocError> {
    let mut text = Vec::new(alloc);
    for part in parts.iter() {
        text.extend_from_slice(*part)?;
    }
    Ok(text)
}

/// Whether one of these texts is the printed one.
pub fn is_one_of(alloc: Global, texts: &[Parts], printed: &[u8]) -> Result<bool, AllocError> {
    for parts in texts.iter() {
        if joined(alloc, *parts)?.as_slice() == printed {
            return Ok(true);
        }
    }
    Ok(false)
}

/// Whether one of these texts begins with the printed one.
pub fn begins_one_of(alloc: Global, texts: &[Parts], printed: &[u8]) -> Result<bool, AllocError> {
    for parts in texts.iter() {
        if joined(alloc, *parts)?.starts_with(printed) {
            return Ok(true);
        }
    }
    Ok(false)
}

impl Script {
    /// The table `t` with its first rows, and the script `s`.
    pub fn files<R: Abort + Threads + Sync>(
        &self,
        rt: &R,
        alloc: Global,
    ) -> Result<MemFiles, Fail> {
        let given = [
            ("text", self.table),
            ("first", self.first),
            ("s", self.text),
        ];
        let mut files = files_of(alloc, &given, &[])?;
        for words in [["create", "t", "text"], ["shell", "t", "first"]] {
            let (status, _) = run(rt, alloc, &words, &mut files, &OpenGate)?;
            assert_eq!(rt; status, Status::Ok);
        }
        Ok(files)
    }

    /// A copy of the table and the script, of which the listed calls fail.
    pub fn copy(
        &self,
        alloc: Global,
        files: &MemFiles,
        fail: &[u64],
    ) -> Result<MemFiles, AllocError> {
        copy_of(alloc, files, &["t.MYI", "t.MYD", "s"], fail)
    }

    /// Runs the script; the status, and what was printed.
    pub fn run<R: Threads + Sync, G: Gate>(
        &self,
        rt: &R,
        alloc: Global,
        files: &mut MemFiles,
        gate: &G,
    ) -> Result<(Status, MemSink), AllocError> {
        run(rt, alloc, &["shell", self.option, "t", "s"], files, gate)
    }

    /// Runs the script to its end, which prints one of these texts, and leaves a table without findings and its data file.
    pub fn prints_one_of<R: Abort + Threads + Sync, G: Gate>(
        &self,
        rt: &R,
        alloc: Global,
        files: &mut MemFiles,
        gate: &G,
        texts: &[Parts],
    ) -> Result<(), Fail> {
        let (status, out) = self.run(rt, alloc, files, gate)?;
        assert_eq!(rt; status, Status::Ok);
        assert_eq!(rt; files.fault_count(), 0);
        assert!(rt; is_one_of(alloc, texts, out.written())?);
        assert!(rt; files.get("t.MYD") == Some(self.leaves));
        let (status, out) = run(rt, alloc, &["chk", "t"], files, &OpenGate)?;
        assert_eq!(rt; status, Status::Ok);
        assert!(rt; out.written() == b"t: ok\n".as_slice());
        Ok(())
    }
}
