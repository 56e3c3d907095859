// A shelf: a map from names to bytes.
ghost use Rattle.std.specs.Prelude.{◌≡◌, ◌↔◌, ◌⊎◌, ◌<◌, ◌≤◌, ℕ, List, length, OnOk, OnErr, IfOk, IsErrOf, IfSome, Some, None, true, false, Ok, Err};
ghost use Rattle.std.specs.BTreeMap.{get_by_text};
ghost use Rattle.std.specs.Option.{option_copied};
ghost use Rattle.seq_shelf.specs.Causes.{HasCause, AnswersUnlessFailed};
ghost use Rattle.seq_shelf.specs.Calls.{is_due, after_call};
ghost use Rattle.seq_shelf.specs.Told.{load_of, Map, Stores, Keeps, KeepsOthers, ShelfView};

use crate::failing::Failing;
use seq_words::{Bytes, NoMemory};
use std::alloc::Global;
use std::collections::BTreeMap;

/// Why a shelf gives no content. A fault comes before the other errors.
#[derive(Clone, Copy, Debug, PartialEq, Eq)]
pub enum LoadError {
    /// There is no file of that name.
    Absent,
    /// The content has more bytes than the limit.
    TooLong,
    /// A fault of the shelf.
    Failed,
    NoMemory,
}

/// Why a shelf doesn't store a content.
#[derive(Clone, Copy, Debug, PartialEq, Eq)]
pub enum StoreError {
    /// A fault of the shelf.
    Failed,
    NoMemory,
}

/// A map from names to bytes.
pub trait Shelf {
    /// The map, where it tells it, and the count of its faults.
    ghost shelf: { Self → ShelfView };

    /// The content of the file of that name, if it has at most `limit` bytes.
    fn load(&mut self, name: &str, limit: u64) -> Result<Bytes, LoadError>
        ensures same { (shelf self.new).told ≡ (shelf self.old).told }
        ensures found { (map : Map) → (shelf self.old).told ≡ Some map →
            IfOk result (λ bytes. (map name.now ≡ Some bytes) × (length bytes ≤ limit)) }
        ensures absent { (map : Map) → (shelf self.old).told ≡ Some map →
            IsErrOf result LoadError.Absent → map name.now ≡ None }
        ensures no_name { (map : Map) → (shelf self.old).told ≡ Some map →
            map name.now ≡ None → AnswersUnlessFailed result LoadError.Absent }
        ensures too_long { (map : Map) → (shelf self.old).told ≡ Some map →
            IsErrOf result LoadError.TooLong →
            ((bytes : List ℕ) × (map name.now ≡ Some bytes) × (limit < length bytes)) }
        ensures above_limit { (map : Map) (bytes : List ℕ) → (shelf self.old).told ≡ Some map →
            map name.now ≡ Some bytes → limit < length bytes →
            AnswersUnlessFailed result LoadError.TooLong }

        // The limit holds also where the map isn't told.
        ensures within { IfOk result (λ bytes. length bytes ≤ limit) }
        ensures fault { HasCause LoadError.Failed (shelf self.old).faults (shelf self.new).faults result };

    /// Makes `bytes` the content of the file of that name. After an error that file, and no other, may differ.
    fn store(&mut self, name: &str, bytes: &[u8]) -> Result<(), StoreError>
        ensures ok { OnOk result (Stores (shelf self.old).told (shelf self.new).told name.now bytes.now) }
        ensures err { OnErr result (KeepsOthers (shelf self.old).told (shelf self.new).told name.now) }
        ensures fault { HasCause StoreError.Failed (shelf self.old).faults (shelf self.new).faults result };
}

/// A shelf in memory that never fails.
#[derive(Drop)]
pub struct SoundShelf {
    alloc: Global,
    files: BTreeMap<String, Bytes>,
}

impl SoundShelf {
    /// A shelf with no file. It takes no memory.
    pub fn new(alloc: Global) -> Self
        ensures { ⟦<SoundShelf as Shelf>⟧.shelf result ≡
            record { told = Some (λ name. None); faults = 0 } }
    {
        SoundShelf {
            alloc,
            files: BTreeMap::new(alloc),
        }
    }

    /// Makes `bytes` the content of the file of that name.
    #[tactic(auto, using(std::proofs::lemmas::Map::Text::text_keys))]
    pub fn put(&mut self, name: &str, bytes: &[u8]) -> Result<(), NoMemory>
        ensures ok { OnOk result
            (Stores (⟦<SoundShelf as Shelf>⟧.shelf self.old).told
            (⟦<SoundShelf as Shelf>⟧.shelf self.new).told name.now bytes.now) }
        ensures err { OnErr result
            (Keeps (⟦<SoundShelf as Shelf>⟧.shelf self.old).told (⟦<SoundShelf as Shelf>⟧.shelf self.new).told) }
    {
        let Ok(key) = String::from_str(self.alloc, name) else {
            return Err(NoMemory);
        };
        let content = Bytes::copy_of(self.alloc, bytes)?;
        match self.files.insert(key, content) {
            Ok(_) => Ok(()),
            Err(_) => Err(NoMemory),
        }
    }

    /// The content of the file of that name.
    pub fn get(&self, name: &str) -> Option<&[u8]>
        ensures { IfSome (⟦<SoundShelf as Shelf>⟧.shelf self.now).told
            (λ map. option_copied result ≡ map name.now) }
    {
        match self.files.get(name) {
            Some(content) => Some(content.as_slice()),
            None => None,
        }
    }
}

impl Shelf for SoundShelf {
    ghost shelf = { λ s. record { told = Some (get_by_text s.files); faults = 0 } };

    fn load(&mut self, name: &str, limit: u64) -> Result<Bytes, LoadError>
        ensures same { self.new ≡ self.old }
        ensures loaded { result ≡ Err LoadError.NoMemory ⊎
            result ≡ load_of (get_by_text self.old.files name.now) limit }
    {
        let Some(content) = self.get(name) else {
            return Err(LoadError::Absent);
        };
        if content.len() as u64 > limit {
            return Err(LoadError::TooLong);
        }
        match Bytes::copy_of(self.alloc, content) {
            Ok(copy) => Ok(copy),
            Err(_) => Err(LoadError::NoMemory),
        }
    }

    fn store(&mut self, name: &str, bytes: &[u8]) -> Result<(), StoreError>
        ensures ok { OnOk result
            (Stores (Some (get_by_text self.old.files)) (Some (get_by_text self.new.files)) name.now bytes.now) }
        ensures err { OnErr result
            (Keeps (Some (get_by_text self.old.files)) (Some (get_by_text self.new.files))) }
        ensures never_fails { ¬ IsErrOf result StoreError.Failed }
    {
        match self.put(name, bytes) {
            Ok(()) => Ok(()),
            Err(_) => Err(StoreError::NoMemory),
        }
    }
}

/// A shelf in memory that fails at listed calls of `load` and `store`, which are counted together from 0.
#[derive(Drop)]
pub struct MemShelf {
    sound: SoundShelf,
    failing: Failing,
}

impl MemShelf {
    /// A shelf with no file. It takes no memory.
    pub fn new(alloc: Global, failing: Bytes) -> Self
        ensures fresh { ⟦<MemShelf as Shelf>⟧.shelf result ≡
            record { told = Some (λ name. None); faults = 0 } }
        ensures failing { result.failing ≡ record { numbers = failing; calls = 0; faults = 0 } }
    {
        MemShelf {
            sound: SoundShelf::new(alloc),
            failing: Failing::new(failing),
        }
    }

    /// Makes `bytes` the content of the file of that name. It isn't a counted call.
    pub fn put(&mut self, name: &str, bytes: &[u8]) -> Result<(), NoMemory>
        ensures ok { OnOk result
            (Stores (⟦<MemShelf as Shelf>⟧.shelf self.old).told
            (⟦<MemShelf as Shelf>⟧.shelf self.new).told name.now bytes.now) }
        ensures err { OnErr result
            (Keeps (⟦<MemShelf as Shelf>⟧.shelf self.old).told (⟦<MemShelf as Shelf>⟧.shelf self.new).told) }
        ensures not_counted { self.new.failing ≡ self.old.failing }
    {
        self.sound.put(name, bytes)
    }

    /// The content of the file of that name.
    pub fn get(&self, name: &str) -> Option<&[u8]>
        ensures { IfSome (⟦<MemShelf as Shelf>⟧.shelf self.now).told
            (λ map. option_copied result ≡ map name.now) }
    {
        self.sound.get(name)
    }
}

impl Shelf for MemShelf {
    ghost shelf = { λ s. record { told = Some (get_by_text s.sound.files); faults = s.failing.faults } };

    fn load(&mut self, name: &str, limit: u64) -> Result<Bytes, LoadError>
        ensures fails { result ≡ Err LoadError.Failed ↔ (is_due self.old.failing ≡ true) }
        ensures counted { self.new.failing ≡ after_call self.old.failing }
        ensures same { self.new.sound ≡ self.old.sound }
        ensures loaded { is_due self.old.failing ≡ false →
            result ≡ Err LoadError.NoMemory ⊎
            result ≡ load_of (get_by_text self.old.sound.files name.now) limit }
        ensures fault { HasCause LoadError.Failed self.old.failing.faults self.new.failing.faults result }
    {
        if self.failing.fails() {
            return Err(LoadError::Failed);
        }
        self.sound.load(name, limit)
    }

    fn store(&mut self, name: &str, bytes: &[u8]) -> Result<(), StoreError>
        ensures fails { result ≡ Err StoreError.Failed ↔ (is_due self.old.failing ≡ true) }
        ensures counted { self.new.failing ≡ after_call self.old.failing }
        ensures ok { OnOk result
            (Stores (Some (get_by_text self.old.sound.files)) (Some (get_by_text self.new.sound.files))
            name.now bytes.now) }
        ensures err { OnErr result
            (Keeps (Some (get_by_text self.old.sound.files)) (Some (get_by_text self.new.sound.files))) }
        ensures fault { HasCause StoreError.Failed self.old.failing.faults self.new.failing.faults result }
    {
        if self.failing.fails() {
            return Err(StoreError::Failed);
        }
        self.sound.store(name, bytes)
    }
}
