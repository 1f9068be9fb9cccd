use crate::refusal::RowErr;
use sbe_base::Files;
use std::alloc::Global;
use std::collections::BTreeMap;

/// The most bytes of a file.
const FILE_LIMIT: usize = 67_108_864;

/// The folder that the program runs in. A file of a content is loaded once.
#[derive(Drop)]
pub struct Folder<F: Files + Drop> {
    alloc: Global,
    files: F,
    loaded: BTreeMap<String, Vec<u8>>,
}

impl<F: Files + Drop> Folder<F> {
    /// A folder with these files, none of which is loaded.
    pub fn new(alloc: Global, files: F) -> Folder<F> {
        Folder {
            alloc,
            files,
            loaded: BTreeMap::new(alloc),
        }
    }

    /// Loads a file.
    pub fn load(&mut self, name: &str) -> Result<Vec<u8>, RowErr> {
        let mut bytes = Vec::new(self.alloc);
        match self.files.load(self.alloc, name, FILE_LIMIT, &mut bytes) {
            Ok(()) => Ok(bytes),
            Err(e) => Err(RowErr::BadFile(String::from_str(self.alloc, name)?, e)),
        }
    }

    /// The bytes of a file, which is loaded if it wasn't yet.
    pub fn bytes(&mut self, name: &str) -> Result<&[u8], RowErr> {
        if !self.loaded.contains_key(name) {
            let bytes = self.load(name)?;
            let key = String::from_str(self.alloc, name)?;
            self.loaded.insert(key, bytes)?;
        }
        match self.loaded.get(name) {
            Some(bytes) => Ok(bytes.as_slice()),
            None => Ok(&[]),
        }
    }
}
