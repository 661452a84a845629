//! Files in memory under the calls on files that a real folder makes: calls can be told to fail, move a few bytes at a
//! time, and say no length.

ghost use Rattle.std.specs.Prelude.{Some, ◌≢◌, ◌≤◌, IfErr};
ghost use Rattle.std.specs.IoError.{error_kind};
ghost use Rattle.std.specs.declared.io.ErrorKind.TheVariants.{OutOfMemory};
ghost use Rattle.cases.specs.Disk.{Sets};
ghost use Rattle.outside.specs.Calls.{GoesOn, Stays};
ghost use Rattle.outside.specs.Files.{Rose};

use outside::{FileCalls, Folder, SureFolder};
use std::alloc::Global;
use std::io;
use std::marker::Model;

/// Files in memory. Calls count from 1.
#[derive(Drop)]
pub struct Disk {
    alloc: Global,
    folder: SureFolder,
    /// Whether the length of a file is said. Of a device it is 0.
    tells_lengths: bool,
    /// How many bytes a call moves at most, and at least one.
    most: usize,
    /// The number of the call that fails.
    fails: u64,
    calls: u64,
    faults: u64,
}

impl Model for Disk {
    ghost use Rattle.outside.specs.Calls as seen;
    ghost use Rattle.cases.specs.Disk.{disk_code};

    ghost Value = { seen.Disk };

    ghost coded = { disk_code };

    ghost view = { λ d. record { files = d.folder.folder; tells_lengths = d.tells_lengths; faults = d.faults } };
}

/// An open file.
#[derive(Drop)]
pub struct DiskFile {
    rest: Vec<u8>,
    name: String,
    written: Vec<u8>,
}

impl Model for DiskFile {
    ghost use Rattle.std.specs.Prelude.{string_bytes};
    ghost use Rattle.outside.specs.Calls.{OpenFile};

    ghost Value = { OpenFile };

    ghost view = { λ f. record { rest = f.rest.items; name = string_bytes f.name; written = f.written.items } };
}

impl Disk {
    /// These files, whose call of this number fails, and whose calls move so many bytes at a time.
    pub fn new(
        alloc: Global,
        folder: SureFolder,
        tells_lengths: bool,
        most: usize,
        fails: u64,
    ) -> Disk {
        Disk {
            alloc,
            folder,
            tells_lengths,
            most,
            fails,
            calls: 0,
            faults: 0,
        }
    }

    /// Counts one more call, and refuses the one that is to fail.
    fn call(&mut self) -> io::Result<()>
        ensures stays { Stays self.old self.new }
        ensures failed { IfErr result (λ error. Rose self.old.faults self.new.faults) }
        ensures no_memory { IfErr result (λ error. error_kind error ≢ OutOfMemory) }
    {
        self.calls = self.calls.saturating_add(1);
        if self.calls == self.fails {
            self.faults = self.faults.saturating_add(1);
            return Err(io::Error::from(io::ErrorKind::Other));
        }
        Ok(())
    }

    /// Sets the file of this name to these bytes. Memory alone can be wanting.
    fn set(&mut self, name: &str, bytes: &[u8]) -> io::Result<()>
        ensures sets { Sets name.now bytes.now result self.old self.new }
        ensures goes_on { GoesOn self.old self.new }
    {
        if self.folder.put(name, bytes).is_err() {
            return Err(io::Error::from(io::ErrorKind::OutOfMemory));
        }
        Ok(())
    }
}

impl FileCalls for Disk {
    type File = DiskFile;

    ghost disk = { λ d. Some d };

    ghost open_file = { λ f. f };

    fn is_regular(&mut self, _name: &str) -> bool {
        true
    }

    fn open(&mut self, name: &str) -> io::Result<DiskFile> {
        self.call()?;
        let Some(bytes) = self.folder.file(name) else {
            return Err(io::Error::from(io::ErrorKind::NotFound));
        };
        Ok(DiskFile {
            rest: Vec::from_slice(self.alloc, bytes)?,
            name: String::new(self.alloc),
            written: Vec::new(self.alloc),
        })
    }

    fn length(&mut self, file: &DiskFile) -> io::Result<u64> {
        self.call()?;
        Ok(if self.tells_lengths {
            file.rest.len() as u64
        } else {
            0
        })
    }

    fn read(&mut self, file: &mut DiskFile, room: &mut [u8]) -> io::Result<usize> {
        self.call()?;
        let count = self.most.max(1).min(room.len()).min(file.rest.len());
        room[..count].copy_from_slice(&file.rest[..count]);
        file.rest = Vec::from_slice(self.alloc, &file.rest[count..])?;
        Ok(count)
    }

    fn create(&mut self, name: &str) -> io::Result<DiskFile> {
        self.call()?;
        let file = DiskFile {
            rest: Vec::new(self.alloc),
            name: String::from_str(self.alloc, name)?,
            written: Vec::new(self.alloc),
        };
        self.set(name, b"")?;
        Ok(file)
    }

    fn write(&mut self, file: &mut DiskFile, bytes: &[u8]) -> io::Result<usize> {
        self.call()?;
        let count = self.most.max(1).min(bytes.len());
        file.written.extend_from_slice(&bytes[..count])?;
        self.set(&file.name, &file.written)?;
        Ok(count)
    }
}
