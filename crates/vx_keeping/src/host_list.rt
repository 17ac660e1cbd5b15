ghost use Rattle.std.specs.Prelude.{◌≡◌, ◌<◌, [], ◌∷◌, ◌++◌, OnOk, OnErr, IfSome, length};
ghost use Rattle.std.specs.List.{list_any, position};
ghost use Rattle.vx_value.specs.Texts.{same_text};
ghost use Rattle.vx_transform.specs.Shelves.{copies_dropped};
ghost use Rattle.vx_keeping.specs.Assigning.{Host, assigned, is_free, is_run, names_of, released, runs_of};
ghost use Rattle.vx_keeping.specs.Given.{SameCopies};

use crate::host_transform::HostTransform;
use crate::hosts::Hosts;
use crate::losing::take_copy;
use crate::named_hosts::NamedHosts;
use std::alloc::Global;
use std::marker::Model;
use vx_ledger::{Finalizer, Parcel};
use vx_places::Line;
use vx_transform::Shelf;
use vx_value::{Text, WantOfMemory};

/// The transforms that a program hands in, in order. Contracts see the name of each, and the instance that runs it.
#[derive(Drop)]
pub struct HostList {
    hosts: Vec<HostTransform>,
}

impl Model for HostList {
    ghost use Rattle.std.specs.Prelude.{List};
    ghost use Rattle.std.specs.Coded.{codes};
    ghost use Rattle.vx_keeping.specs.Assigning.{Host};

    ghost Value = { List Host };

    ghost coded = { Prim.hlevel codes };

    ghost view = { λ list. list.hosts.items };
}

impl HostList {
    /// No transforms.
    pub fn new(alloc: Global) -> Self
        ensures { result ≡ [] }
    {
        HostList {
            hosts: Vec::new(alloc),
        }
    }

    /// Puts one behind the others. For want of memory it is dropped, and nothing has changed.
    pub fn push(&mut self, host: HostTransform) -> Result<(), WantOfMemory>
        ensures pushed { OnOk result (self.new ≡ self.old ++ host ∷ []) }
        ensures unchanged { OnErr result (self.new ≡ self.old) }
    {
        match self.hosts.push(host) {
            Ok(()) => Ok(()),
            Err(_) => Err(WantOfMemory),
        }
    }

    /// Whether one of them has a name.
    pub fn has(&self, name: &Text) -> bool
        ensures { result ≡ list_any (same_text name.now) (names_of self.now) }
    {
        for host in self.hosts.as_slice() {
            if host.is_named(name) {
                return true;
            }
        }
        false
    }

    /// Has no instance run any of them.
    pub fn release(&mut self)
        ensures names { names_of self.new ≡ names_of self.old }
        ensures runs { runs_of self.new ≡ released (names_of self.old) }
    {
        for place in 0..self.hosts.len() {
            self.hosts[place].run_by(None);
        }
    }

    /// Has an instance run the first of a name that no instance runs, and changes nothing else. Where there is none, it changes nothing.
    pub fn assign(&mut self, name: &Text, instance: u32)
        ensures names { names_of self.new ≡ names_of self.old }
        ensures runs { runs_of self.new ≡
            assigned name.now instance (names_of self.old) (runs_of self.old) }
    {
        if let Some(place) = self.place_for(name) {
            self.hosts[place].run_by(Some(instance));
        }
    }

    // The place of the first of a name that no instance runs.
    fn place_for(&self, name: &Text) -> Option<usize>
        ensures { result ≡
            position (λ (host : Host). is_free name.now host.name host.instance) self.now }
    {
        for place in 0..self.hosts.len() {
            if self.hosts[place].is_free(name) {
                return Some(place);
            }
        }
        None
    }

    // The place of the first that an instance runs.
    fn place_of(&self, instance: u32) -> Option<usize>
        ensures { result ≡ position (λ (host : Host). is_run instance host.instance) self.now }
    {
        for place in 0..self.hosts.len() {
            if self.hosts[place].is_run(instance) {
                return Some(place);
            }
        }
        None
    }
}

impl Hosts for HostList {
    fn answer(
        &mut self,
        alloc: Global,
        i: u32,
        taken: &mut Line<Parcel>,
        now: u64,
        shelf: &mut Shelf,
        left: &mut Vec<Finalizer>,
    ) -> Result<(), WantOfMemory> {
        match self.place_of(i) {
            Some(place) => self.hosts[place]
                .transform
                .answer(alloc, taken, now, shelf, left),
            None => leave_line(taken, left),
        }
    }

    fn tick(
        &mut self,
        alloc: Global,
        i: u32,
        now: u64,
        shelf: &mut Shelf,
    ) -> Result<(), WantOfMemory> {
        match self.place_of(i) {
            Some(place) => self.hosts[place].transform.tick(alloc, now, shelf),
            None => Ok(()),
        }
    }

    fn flush(&mut self, alloc: Global, i: u32, shelf: &mut Shelf) -> Result<(), WantOfMemory> {
        match self.place_of(i) {
            Some(place) => self.hosts[place].transform.flush(alloc, shelf),
            None => Ok(()),
        }
    }

    fn due(&self, i: u32) -> Option<u64> {
        match self.place_of(i) {
            Some(place) => self.hosts[place].transform.due(),
            None => None,
        }
    }
}

impl NamedHosts for HostList {
    ghost names = { names_of };

    ghost runs = { runs_of };

    fn has(&self, name: &Text) -> bool {
        HostList::has(self, name)
    }

    fn release(&mut self) {
        HostList::release(self);
    }

    fn assign(&mut self, name: &Text, instance: u32) {
        HostList::assign(self, name, instance);
    }
}

// Takes the copies of a line, and puts them behind some others. Memory is found for each before it is taken.
fn leave_line(taken: &mut Line<Parcel>, left: &mut Vec<Finalizer>) -> Result<(), WantOfMemory>
    ensures same { SameCopies
        (copies_dropped taken.old.items ++ left.old.items)
        (copies_dropped taken.new.items ++ left.new.items) }
    ensures none { OnOk result (taken.new.items ≡ []) }
    ensures room { taken.new.room ≡ taken.old.room }
{
    loop {
        left.reserve(1)?;
        match take_copy(taken) {
            Some(copy) => left.push_reserved(copy),
            None => return Ok(()),
        }
    }
}
