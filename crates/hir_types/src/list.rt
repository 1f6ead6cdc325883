//! Lists that contracts see as lists.
ghost use Rattle.std.specs.Prelude.{◌≡◌, [], ◌∷◌, ◌++◌, ◌^◌, ◌<◌, length, slice_get, slice_set, ◌↔◌, IsTrue, OnOk, OnErr, OnSome, IfOk};
ghost use Rattle.std.specs.Iterator.Runs.{EveryRun, ItemsMapTo};
ghost use Rattle.std.specs.Slice.Iter.{iter_rest, iter_steps};
ghost use Rattle.std.specs.Option.{option_copied};
ghost use Rattle.std.specs.Cmp.Lexicographic.{pointwise, lists_per, lists_equiv};
ghost use Rattle.std.specs.Hash.{slice, items_Alike};

use std::alloc::{AllocError, Global};
use std::hash::{Hash, Hasher};
use std::marker::Model;
use std::slice::Iter;

/// A `Vec` that contracts see as the list of its elements, so that two lists are equal where their
/// elements are.
#[derive(Debug)]
pub struct List<T> {
    items: Vec<T>,
}

impl<T> Model for List<T> {
    ghost use Rattle.std.specs.Prelude.{List};
    ghost use Rattle.std.specs.Coded.{coded_list};

    ghost Value = { List T };

    ghost coded = { coded_list T.code };

    ghost view = { λ it. it.items.items };
}

// A type with a `drop` of its own is let go by one call, which is proved once, here.
impl<T: Drop> Drop for List<T> {
    fn drop(self) {
        let List { items: _ } = self;
    }
}

impl<T> List<T> {
    /// The empty list.
    pub fn new(alloc: Global) -> List<T>
        ensures { result ≡ [] }
    {
        List {
            items: Vec::new(alloc),
        }
    }

    /// The elements of a `Vec`.
    pub fn from_vec(items: Vec<T>) -> List<T>
        ensures { result ≡ items.items }
    {
        List { items }
    }

    /// The elements as a slice.
    pub fn as_slice(&self) -> &[T]
        ensures { result.now ≡ self.now }
    {
        self.items.as_slice()
    }

    /// How many elements there are.
    pub fn len(&self) -> usize
        ensures { result ≡ length self.now }
    {
        self.items.len()
    }

    /// Whether there are none.
    pub fn is_empty(&self) -> bool
        ensures { IsTrue result ↔ (self.now ≡ []) }
    {
        self.items.is_empty()
    }

    /// The element at a position, or `None` past the end.
    pub fn get(&self, at: usize) -> Option<&T>
        ensures value { option_copied result ≡ slice_get self.now at }
        ensures within { OnSome result (at < length self.now) }
    {
        self.items.get(at)
    }
}

impl<T: Drop> List<T> {
    /// Adds an element at the end.
    pub fn push(&mut self, item: T) -> Result<(), AllocError>
        ensures ok { OnOk result (self.new ≡ self.old ++ item ∷ []) }
        ensures err { OnErr result (self.new ≡ self.old) }
    {
        self.items.push(item)?;
        Ok(())
    }

    /// Puts an element in another's place.
    pub fn set(&mut self, at: usize, item: T)
        requires { at < length self.old }
        ensures { self.new ≡ slice_set self.old at item }
    {
        self.items[at] = item;
    }
}

impl<T: Copy + Drop> List<T> {
    /// An equal copy.
    pub fn copied(&self, alloc: Global) -> Result<List<T>, AllocError>
        ensures { IfOk result (λ copy. copy ≡ self.now) }
    {
        let items = Vec::from_slice(alloc, self.as_slice())?;
        Ok(List::from_vec(items))
    }
}

impl<'a, T> IntoIterator for &'a List<T> {
    type Item = &'a T;

    type IntoIter = Iter<'a, T>;

    ghost into_iter_gives = { λ v r. (iter_rest r ≡ v.now) × (length (iter_rest r) < 2 ^ 64) × EveryRun (iter_steps {A = T}) (λ p. ItemsMapTo p (λ y. y.now) (iter_rest p.from)) };

    fn into_iter(self) -> Iter<'a, T> {
        self.as_slice().iter()
    }
}

fn equal<'a, T: PartialEq>(a: &'a [T], b: &'a [T]) -> bool
    ensures { result ≡ pointwise T.eq a.now b.now }
{
    PartialEq::eq(&a, &b)
}

impl<T: PartialEq> PartialEq for List<T> {
    ghost eq = { λ x y. pointwise T.eq x y };

    ghost laws = { lists_per T.laws };

    fn eq(&self, other: &Self) -> bool {
        equal(self.as_slice(), other.as_slice())
    }
}

impl<T: Eq> Eq for List<T> {
    ghost laws = { lists_equiv T.Eq.laws };
}

impl<T: Hash> Hash for List<T> {
    ghost hash_input = { λ v. slice T.hash_input v };

    ghost respects_eq = { (items_Alike (record { fed = T.respects_eq })).fed };

    fn hash<H: Hasher>(&self, state: &mut H) {
        self.as_slice().hash(state);
    }
}
