// The origins that were begun, by number.
ghost use Rattle.std.specs.Prelude.{◌≡◌, ◌<◌, ◌≤◌, ◌↔◌, IsTrue, [], ◌∷◌, ◌++◌, Some, None, IfOk, OnOk, length, slice_get, slice_set};
ghost use Rattle.sched_core.specs.Nodes.{BeginsChild, ChildAnswers, answers_in, awaiting, missing, new_node, without_children};

use contract_views::Items;
use serial_meaning::{Answer, Origin};
use std::alloc::Global;
use std::mem;
use strand_machine::{Memory, Task};

// An origin's parent: its number, and the child's index among those that it awaits.
#[derive(Clone, Copy, Debug, PartialEq, Eq)]
pub(crate) struct Link {
    pub parent: usize,
    pub place: usize,
}

// A child that is awaited, by its number, and its answer once it is there.
#[derive(Drop)]
pub(crate) struct NodeChild {
    pub number: usize,
    pub answer: Option<Answer>,
}

// An origin that was begun.
#[derive(Drop)]
pub(crate) struct SpawnNode {
    pub origin: Origin,
    // None for main.
    pub link: Option<Link>,
    // The children whose answers its task hasn't taken, in order.
    pub children: Items<NodeChild>,
    // How many of them haven't answered.
    pub unanswered: usize,
}

// The answers of children that have all answered.
fn answers_of(children: Items<NodeChild>, alloc: Global) -> Result<Items<Answer>, Memory>
    requires { missing children ≡ 0 }
    ensures { IfOk result (λ answers. answers ≡ answers_in children) }
{
    let mut answers = Vec::with_capacity(alloc, children.as_slice().len())?;
    for child in children.0 {
        let Some(answer) = child.answer else {
            unreachable!()
        };
        answers.push(answer)?;
    }
    Ok(Items(answers))
}

impl SpawnNode {
    // An origin that awaits no children.
    pub fn new(alloc: Global, origin: Origin, link: Option<Link>) -> SpawnNode
        ensures { result ≡ new_node origin link }
    {
        SpawnNode {
            origin,
            link,
            children: Items(Vec::new(alloc)),
            unanswered: 0,
        }
    }

    // How many children are awaited.
    fn count(&self) -> usize
        ensures { result ≡ length self.now.children }
    {
        self.children.as_slice().len()
    }

    // Awaits one more child.
    fn await_child(&mut self, number: usize) -> Result<(), Memory>
        requires { self.old.unanswered ≤ length self.old.children }
        ensures { OnOk result (self.new ≡ awaiting number self.old) }
    {
        self.children.0.push(NodeChild {
            number,
            answer: None,
        })?;
        self.unanswered += 1;
        Ok(())
    }

    // Stores the answer of the child with this index.
    pub fn put_child_answer(&mut self, place: usize, answer: Answer)
        requires place { place < length self.old.children }
        requires unanswered { 0 < self.old.unanswered }
        ensures { ChildAnswers place answer self.old self.new }
    {
        self.children.0[place].answer = Some(answer);
        self.unanswered -= 1;
    }

    // Whether all children have answered.
    pub fn is_ready(&self) -> bool
        ensures { IsTrue result ↔ (self.now.unanswered ≡ 0) }
    {
        self.unanswered == 0
    }

    // Takes the answers of all children, which have answered.
    pub fn take_answers(&mut self, alloc: Global) -> Result<Items<Answer>, Memory>
        requires { missing self.old.children ≡ 0 }
        ensures answers { IfOk result (λ answers. answers ≡ answers_in self.old.children) }
        ensures rest { self.new ≡ without_children self.old }
    {
        let children = mem::replace(&mut self.children, Items(Vec::new(alloc)));
        answers_of(children, alloc)
    }
}

// Begins a child of the origin with this number, and returns the child's number.
pub(crate) fn begin_child(
    nodes: &mut Vec<SpawnNode>,
    alloc: Global,
    parent: usize,
    child: &Task,
) -> Result<usize, Memory>
    requires parent { parent < length nodes.old.items }
    requires unanswered { (n : _) → slice_get nodes.old.items parent ≡ Some n → n.unanswered ≤ length n.children }
    ensures number { IfOk result (λ number. number ≡ length nodes.old.items) }
    ensures nodes { OnOk result (BeginsChild parent child.now.task.origin nodes.old.items nodes.new.items) }
{
    let number = nodes.len();
    let origin = child.share_origin(alloc)?;
    let place = nodes[parent].count();
    nodes[parent].await_child(number)?;
    nodes.push(SpawnNode::new(alloc, origin, Some(Link { parent, place })))?;
    Ok(number)
}
