//! Lists of keys that are linked by position, so that a key leaves its list without a search.
ghost use Rattle.std.specs.Prelude.{◌≡◌, ◌≢◌, ℕ, ◌+◌, ◌^◌, ◌<◌, ◌≤◌, [], ◌∷◌, ◌++◌, length, Some, None, IfSome, IfNone, IfOk, OnOk, slice_get, vec_len};
ghost use Rattle.voter_lists.specs.Rings.{items, list_of, list_count, key_limit, without, before, after, IsIn, IsApart, IsEmpty, IsFit, SameLists, Moves};
ghost use Rattle.voter_lists.specs.Links.{next_of, prev_of, Skips, Splices};

use npos_base::NoMemory;
use std::alloc::Global;
use std::marker::Model;

/// A fixed number of lists over small numbers, the keys. The lists are few, so that a byte tells in
/// which one a key is: at most one. Only `new` and `reserve_key` take memory.
#[derive(Drop)]
pub(crate) struct Rings {
    // each list is a ring through its head: the head of list `n` is link `n`, the link of a key is
    // `heads + key`
    links: Vec<Link>,
    // the list of each key
    owners: Vec<Option<u8>>,
    heads: usize,
}

#[derive(Clone, Copy)]
struct Link {
    prev: usize,
    next: usize,
}

impl Model for Rings {
    ghost use Rattle.voter_lists.specs.Rings.{Lists, lists_code};

    ghost Value = { Lists };

    ghost coded = { lists_code };

    ghost use Rattle.voter_lists.specs.Links.{lists_of, AreWellLinked};

    ghost view = { λ s. lists_of s.links.items s.owners.items s.heads };

    ghost invariant = { λ s. AreWellLinked s.links.items s.owners.items s.heads };
}

/// Joins the two neighbours of a place.
fn skip(links: &mut Vec<Link>, at: usize)
    requires at_in { at < vec_len links.old }
    requires prev_in { prev_of links.old.items at < vec_len links.old }
    requires next_in { next_of links.old.items at < vec_len links.old }
    ensures skips { Skips links.old.items links.new.items at }
    ensures len { vec_len links.new ≡ vec_len links.old }
{
    let Link { prev, next } = links[at];
    links[prev].next = next;
    links[next].prev = prev;
}

/// Puts a place directly before another.
fn splice(links: &mut Vec<Link>, at: usize, next: usize)
    requires at_in { at < vec_len links.old }
    requires next_in { next < vec_len links.old }
    requires prev_in { prev_of links.old.items next < vec_len links.old }
    requires not_next { at ≢ next }
    requires not_prev { at ≢ prev_of links.old.items next }
    ensures splices { Splices links.old.items links.new.items at next }
    ensures len { vec_len links.new ≡ vec_len links.old }
{
    let prev = links[next].prev;
    links[at] = Link { prev, next };
    links[prev].next = at;
    links[next].prev = at;
}

impl Rings {
    /// So many empty lists, numbered from 0.
    pub(crate) fn new(alloc: Global, lists: usize) -> Result<Rings, NoMemory>
        requires { lists ≤ 256 }
        ensures count { IfOk result (λ s. list_count s ≡ lists) }
        ensures no_items { IfOk result (λ s. (list : ℕ) → items s list ≡ []) }
        ensures no_keys { IfOk result (λ s. (key : ℕ) → list_of s key ≡ None) }
        ensures fit { IfOk result (λ s. IsFit s) }
        ensures no_room { IfOk result (λ s. key_limit s ≡ 0) }
    {
        let mut links = Vec::with_capacity(alloc, lists)?;
        for head in 0..lists {
            links.push_reserved(Link {
                prev: head,
                next: head,
            });
        }
        Ok(Rings {
            links,
            owners: Vec::new(alloc),
            heads: lists,
        })
    }

    /// Makes room for so many keys more, of which none is there for that.
    pub(crate) fn reserve(&mut self, more: usize) -> Result<(), NoMemory>
        ensures { self.new ≡ self.old }
    {
        self.links.reserve(more)?;
        self.owners.reserve(more)?;
        Ok(())
    }

    /// Makes room for the key and each key below it.
    pub(crate) fn reserve_key(&mut self, key: usize) -> Result<(), NoMemory>
        requires { key < 2 ^ 63 }
        ensures room { OnOk result (key < key_limit self.new) }
        ensures fits { OnOk result (key + 1 < 2 ^ 64) }
        ensures grows { key_limit self.old ≤ key_limit self.new }
        ensures same { SameLists self.old self.new }
    {
        if key < self.owners.len() {
            return Ok(());
        }
        if key == self.owners.len() {
            return self.add_key();
        }
        self.links
            .resize(self.heads + key + 1, Link { prev: 0, next: 0 })?;
        self.owners.resize(key + 1, None)?;
        Ok(())
    }

    /// Makes room for the key behind those that have room. Most keys come so, and to add one is
    /// cheaper than to fill up to one.
    fn add_key(&mut self) -> Result<(), NoMemory>
        ensures room { OnOk result (key_limit self.new ≡ key_limit self.old + 1) }
        ensures grows { key_limit self.old ≤ key_limit self.new }
        ensures same { SameLists self.old self.new }
    {
        self.links.reserve(1)?;
        self.owners.reserve(1)?;
        self.links.push_reserved(Link { prev: 0, next: 0 });
        self.owners.push_reserved(None);
        Ok(())
    }

    /// The list that the key is in.
    pub(crate) fn list_of(&self, key: usize) -> Option<usize>
        ensures value { result ≡ list_of self.now key }
        ensures in_range { IfSome result (λ list. list < list_count self.now) }
        ensures absent { (list : ℕ) → result ≢ Some list → ¬ IsIn key (items self.now list) }
    {
        match self.owners.get(key) {
            Some(Some(list)) => Some(*list as usize),
            _ => None,
        }
    }

    /// The first key of a list.
    pub(crate) fn front(&self, list: usize) -> Option<usize>
        requires { list < list_count self.now }
        ensures value { result ≡ slice_get (items self.now list) 0 }
        ensures member { IfSome result (λ key. list_of self.now key ≡ Some list) }
        ensures empty { IfNone result (IsEmpty self.now list) }
        ensures apart { IsApart (items self.now list) }
    {
        let first = self.links[list].next;
        if first == list {
            None
        } else {
            Some(first - self.heads)
        }
    }

    /// The key after this one of its list.
    pub(crate) fn next(&self, list: usize, key: usize) -> Option<usize>
        requires { list_of self.now key ≡ Some list }
        ensures value { result ≡ after key (items self.now list) }
        ensures member { IfSome result (λ other. list_of self.now other ≡ Some list) }
    {
        let next = self.links[self.heads + key].next;
        if next == list {
            None
        } else {
            Some(next - self.heads)
        }
    }

    /// Puts a key that is in no list at the end of a list.
    pub(crate) fn push_back(&mut self, list: usize, key: usize)
        requires list_in { list < list_count self.old }
        requires key_in { key < key_limit self.old }
        requires unlinked { list_of self.old key ≡ None }
        ensures fit { IsFit self.new }
        ensures moves { Moves self.old self.new key (Some list) }
        ensures last { items self.new list ≡ items self.old list ++ key ∷ [] }
        ensures others { (other : ℕ) → other ≢ list → items self.new other ≡ items self.old other }
    {
        splice(&mut self.links, self.heads + key, list);
        self.owners[key] = Some(list as u8);
    }

    /// Puts a key that is in no list directly before another one of a list.
    pub(crate) fn put_before(&mut self, list: usize, key: usize, other: usize)
        requires key_in { key < key_limit self.old }
        requires unlinked { list_of self.old key ≡ None }
        requires linked { list_of self.old other ≡ Some list }
        ensures fit { IsFit self.new }
        ensures moves { Moves self.old self.new key (Some list) }
        ensures placed { items self.new list ≡ before key other (items self.old list) }
        ensures others { (n : ℕ) → n ≢ list → items self.new n ≡ items self.old n }
    {
        splice(&mut self.links, self.heads + key, self.heads + other);
        self.owners[key] = Some(list as u8);
    }

    /// Takes a key out of its list.
    pub(crate) fn unlink(&mut self, list: usize, key: usize)
        requires { list_of self.old key ≡ Some list }
        ensures fit { IsFit self.new }
        ensures moves { Moves self.old self.new key None }
        ensures left { items self.new list ≡ without key (items self.old list) }
        ensures others { (other : ℕ) → other ≢ list → items self.new other ≡ items self.old other }
    {
        skip(&mut self.links, self.heads + key);
        self.owners[key] = None;
    }
}
