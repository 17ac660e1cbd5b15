ghost use Rattle.std.specs.Prelude.{◌≡◌, None};
ghost use Rattle.vx_value.specs.Texts.{same_text};
ghost use Rattle.vx_keeping.specs.Assigning.{is_free, is_run};

use crate::line_transform::LineTransform;
use std::marker::Model;
use vx_value::Text;

/// A transform that a program hands in, for a component of its name. Contracts see that name, and the instance that runs it.
#[derive(Drop)]
pub struct HostTransform {
    pub(crate) name: Text,
    instance: Option<u32>,
    pub(crate) transform: Box<dyn LineTransform + Send + Drop>,
}

impl Model for HostTransform {
    ghost use Rattle.std.specs.Coded.{codes};
    ghost use Rattle.vx_keeping.specs.Assigning.{Host};

    ghost Value = { Host };

    ghost coded = { Prim.hlevel codes };

    ghost view = { λ host. record { name = host.name; instance = host.instance } };
}

impl HostTransform {
    /// One of a name, which no instance runs yet.
    pub fn new(name: Text, transform: Box<dyn LineTransform + Send + Drop>) -> Self
        ensures name { result.name ≡ name }
        ensures instance { result.instance ≡ None }
    {
        HostTransform {
            name,
            instance: None,
            transform,
        }
    }

    // Whether it is for components of a name.
    pub(crate) fn is_named(&self, name: &Text) -> bool
        ensures { result ≡ same_text name.now self.now.name }
    {
        is_same(name.as_str(), self.name.as_str())
    }

    // Whether it is for components of a name, and no instance runs it.
    pub(crate) fn is_free(&self, name: &Text) -> bool
        ensures { result ≡ is_free name.now self.now.name self.now.instance }
    {
        self.instance.is_none() && self.is_named(name)
    }

    // Whether an instance runs it.
    pub(crate) fn is_run(&self, instance: u32) -> bool
        ensures { result ≡ is_run instance self.now.instance }
    {
        match self.instance {
            Some(other) => other == instance,
            None => false,
        }
    }

    // Has an instance run it from now on, or none.
    pub(crate) fn run_by(&mut self, instance: Option<u32>)
        ensures name { self.new.name ≡ self.old.name }
        ensures instance { self.new.instance ≡ instance }
    {
        self.instance = instance;
    }
}

// Whether two texts are the same.
#[tactic(auto, using(vx_value::proofs::Order::answer_equal))]
fn is_same(a: &str, b: &str) -> bool
    ensures { result ≡ same_text a.now b.now }
{
    a == b
}
