//! The members that a search finds.
use indexmap::IndexSet;
use std::alloc::{AllocError, Global};
use std::hash::Hash;
use std::marker::Model;

/// Why a member has no number.
#[derive(Clone, Copy, Debug, PartialEq, Eq)]
pub enum SearchFault {
    /// It is new, and the most members are found already.
    Full,

    /// There was no memory.
    Memory(AllocError),
}

/// The members that a search has found, each once. A member's number is its place in the order in
/// which they were found.
///
/// A contract sees a search as the list of its members, with how many there may be.
#[derive(Drop)]
pub struct Search<K: Eq + Hash + Drop> {
    most: u64,
    members: IndexSet<K>,
}

impl<K: Eq + Hash + Drop> Model for Search<K> {
    ghost use Rattle.std.specs.Prelude.{◌≤◌, length};
    ghost use Rattle.vc_search.specs.Found.{Found, found_code};

    ghost Value = { Found K };

    ghost coded = { found_code K.code };

    ghost view = { λ s. record { most = s.most; members = s.members.keys } };

    ghost invariant = { λ s. (s.most ≤ 1000000) × (length s.members.keys ≤ s.most) };
}

impl<K: Eq + Hash + Drop> Search<K> {
    ghost use Rattle.std.specs.Prelude.{◌≡◌, ◌≤◌, ◌<◌, [], IfOk, OnOk, OnErr, length, slice_get, Some, option_copied};
    ghost use Rattle.vc_search.specs.Found.{with_member, number_of, member_refusal, IsFound};

    /// A search that may find so many members, and has found none. It takes no memory.
    pub fn new(alloc: Global, most: u64) -> Search<K>
        requires { most ≤ 1000000 }
        ensures { result ≡ record { most = most; members = [] } }
    {
        Search {
            most,
            members: IndexSet::new(alloc),
        }
    }

    /// How many members are found.
    pub fn len(&self) -> usize
        ensures count { result ≡ length self.now.members }
        ensures most { result ≤ self.now.most }
        ensures few { self.now.most ≤ 1000000 }
    {
        self.members.len()
    }

    /// The member with this number, none where there is none.
    pub fn member(&self, number: usize) -> Option<&K>
        ensures member { option_copied result ≡ slice_get self.now.members number }
        ensures few { length self.now.members ≤ self.now.most }
        ensures most { self.now.most ≤ 1000000 }
    {
        self.members.get_index(number)
    }

    /// The number of a member, which is found now where it is new. `Full` comes exactly where it is
    /// new and the most members are found already; after an error the search is as before.
    pub fn find(&mut self, key: K) -> Result<u32, SearchFault>
        ensures ok { OnOk result (self.new ≡ with_member K.eq self.old key) }
        ensures number { IfOk result (λ n. n ≡ number_of K.eq key self.old.members) }
        ensures within { IfOk result (λ n. n < length self.new.members) }
        ensures few { OnOk result (length self.new.members ≤ self.old.most) }
        ensures err { OnErr result (self.new ≡ self.old) }
        ensures answer { IsFound (member_refusal K.eq self.old key) result }
    {
        if (self.members.len() as u64) < self.most {
            match self.members.insert_full(key) {
                Ok((number, _)) => return Ok(number as u32),
                Err(_) => return Err(SearchFault::Memory(AllocError)),
            }
        }
        match self.members.get_index_of(&key) {
            Some(number) => return Ok(number as u32),
            None => return Err(SearchFault::Full),
        }
    }
}
