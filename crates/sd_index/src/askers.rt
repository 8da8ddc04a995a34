// The operations that ask for names.
ghost use Rattle.std.specs.Prelude.{◌≡◌, ℕ, ◌<◌, ◌≤◌, nat_lt, List, [], ◌++◌, length, true, IsTrue, OnOk};
ghost use Rattle.std.specs.List.{list_any};
ghost use Rattle.std.specs.List.Sorted.{IsPermutation};
ghost use Rattle.by_name.specs.At.{owner_of};
ghost use Rattle.sd_call.specs.Requests.{well_formed};
ghost use Rattle.sd_index.specs.declared.asker.Asker.{Asker as AskerValue};
ghost use Rattle.sd_index.specs.Asked.{asker_eq, askers_of, if_asks};

use crate::Asker;
use crate::search::{put_all, put_behind, take_from};
use by_name::{ByName, Place};
use dns_name::Name;
use sd_answer::questions_of;
use sd_call::Request;
use std::alloc::{AllocError, Global};
use std::marker::Model;

/// The operations that ask for names, by name, case aside. All questions of a request have one name, so an operation is filed
/// once, and one that asks nothing isn't filed.
#[derive(Drop)]
pub struct Askers {
    filed: ByName<Asker>,
}

impl Model for Askers {
    ghost use Rattle.by_name.specs.Filed.{Filing};
    ghost use Rattle.sd_index.specs.declared.asker.Asker.{Asker};

    ghost Value = { Filing Asker };

    ghost view = { λ a. a.filed };
}

impl Askers {
    /// No operations. Names can't be chosen to collide by who doesn't know the key.
    pub fn new(alloc: Global, key: u64) -> Askers
        ensures { result.entries ≡ [] }
    {
        Askers {
            filed: ByName::new(alloc, key),
        }
    }

    /// Takes room for `more` operations. Nothing else changes. Refused only for want of memory.
    pub fn reserve(&mut self, more: usize) -> Result<(), AllocError>
        ensures entries { self.new.entries ≡ self.old.entries }
        ensures room { OnOk result (more ≤ self.new.spare) }
    {
        self.filed.reserve(more)
    }

    /// Whether an operation asks for a name, case aside.
    pub fn has(&self, name: &Name) -> bool
        ensures { result ≡ nat_lt 0 (length (askers_of (owner_of name.now) self.now.entries)) }
    {
        let _len = self.filed.len();
        self.filed.get(&Place::new(name, 0)).is_some()
    }

    /// Files an operation under the name that its request asks for, for which there is room. It takes no memory.
    pub fn put(&mut self, request: &Request, asker: Asker)
        requires well_formed { IsTrue (well_formed request.now) }
        requires room { 0 < self.old.spare }
        ensures { (owner : List ℕ) → IsPermutation (askers_of owner self.new.entries) (if_asks owner request.now asker ++ askers_of owner self.old.entries) }
    {
        let questions = questions_of(request);
        if let Some(question) = questions.as_slice().first() {
            put_behind(&mut self.filed, &question.name, asker);
        }
    }

    /// Takes out an operation that is filed under the name that its request asks for. It takes no memory.
    pub fn take(&mut self, request: &Request, asker: Asker)
        requires { IsTrue (well_formed request.now) }
        ensures { (owner : List ℕ) (rest : List AskerValue) → IsPermutation (askers_of owner self.old.entries) (if_asks owner request.now asker ++ rest)
            → IsPermutation (askers_of owner self.new.entries) rest }
    {
        let questions = questions_of(request);
        if let Some(question) = questions.as_slice().first() {
            take_from(&mut self.filed, &question.name, asker);
        }
    }

    /// Puts the operations behind others that ask for a name, case aside, each once, and nothing else. Refused only for want of memory.
    pub fn put_askers(&self, askers: &mut Vec<Asker>, name: &Name) -> Result<(), AllocError>
        ensures { OnOk result (IsPermutation askers.new.items (askers.old.items ++ askers_of (owner_of name.now) self.now.entries)) }
    {
        put_all(askers, &self.filed, name)
    }
}
