//! `DataFile`: the data file of one table.
ghost use Rattle.std.specs.Prelude.{◌≡◌, IfOk, string_bytes};
ghost use Rattle.myi_defs.specs.Sound.{IsSound};
ghost use Rattle.myi_chain.specs.ScanModel.{fresh_scan};

use crate::row_test::RowTest;
use crate::scan::DataScan;
use myi_chain::ScanSetup;
use myi_defs::Defs;
use myi_header::State;
use std::alloc::{AllocError, Global};
use std::marker::Model;

/// A table's data file, by the name of the file.
pub struct DataFile {
    name: String,
    test: RowTest,
    length: u64,
}

impl Drop for DataFile {
    fn drop(self) {
        let DataFile {
            name: _,
            test: _,
            length: _,
        } = self;
    }
}

impl Model for DataFile {
    ghost use Rattle.std.specs.Prelude.{string_bytes};
    ghost use Rattle.myi_data.specs.DataFile.{TableFile};

    ghost Value = { TableFile };

    ghost view = { λ s. record { name = string_bytes s.name; defs = s.test; length = s.length } };
}

impl DataFile {
    /// The data file of that name, with these definitions and this state of its table. Of the state
    /// the length of the data file is used alone.
    pub fn new(
        alloc: Global,
        name: &str,
        defs: &Defs,
        state: &State,
    ) -> Result<DataFile, AllocError>
        requires { IsSound defs.now }
        ensures { IfOk result (λ file. file ≡ record {
          name = name.now;
          defs = defs.now;
          length = state.now.data_file_length;
        }) }
    {
        Ok(DataFile {
            name: String::from_str(alloc, name)?,
            test: RowTest::new(defs)?,
            length: state.data_file_length,
        })
    }

    /// A scan of the rows and the deleted blocks, as far as the state's length of the data file.
    /// `extend` makes a scan of a dynamic table try every position; slots have theirs.
    pub fn scan(&self, extend: bool) -> Result<DataScan, AllocError>
        ensures { IfOk result (λ scan.
            scan ≡ fresh_scan self.now.name self.now.defs extend self.now.length) }
    {
        let setup = ScanSetup {
            extend,
            file_len: self.length,
        };
        DataScan::new(self.name.as_str(), self.test.copy()?, setup)
    }
}
