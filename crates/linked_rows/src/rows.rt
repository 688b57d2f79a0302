//! Many lists in one pool of nodes.
//!
//! ```text
//!     links    0 .. lists - 1 : the ends of the lists      lists : the end of the free nodes      the nodes
//!     values                                                                                      their values
//! ```

ghost use Rattle.std.specs.Prelude.{ℕ, ◌≡◌, ◌+◌, ◌-◌, ◌<◌, ◌≤◌, [], length, replicate, option_map, is_some, IsTrue, Some, None, OnOk, OnErr, IfOk, IfSome};
ghost use Rattle.linked_rows.specs.Rows.{list_of, value_of, first_of, next_of, with_last, without, with_value, StandOnce};

use crate::links::{Link, ends_alone, put_last, take_out};
use crate::node::Node;
use crate::pool::take_free;
use std::alloc::{AllocError, Global};
use std::marker::Model;

/// Lists of values in one pool of nodes. Lists are numbered from 0 on.
///
/// Only [`Rows::new`] and [`Rows::reserve`] take memory.
#[derive(Drop)]
pub struct Rows<T: Copy> {
    links: Vec<Link>,
    values: Vec<T>,
    lists: u32,
    spare: u64,
}

impl<T: Copy> Model for Rows<T> {
    ghost use Rattle.std.specs.Prelude.{◌-◌, vec_len, vec_capacity};
    ghost use Rattle.linked_rows.specs.Rows.{RowsView};

    ghost Value = { RowsView T };

    ghost use Rattle.linked_rows.specs.Pool.{lists_in, IsPool};

    ghost view = { λ r. record { lists = lists_in r.links.items r.values.items r.lists; spare = r.spare } };

    ghost invariant = { λ r. IsPool r.links.items r.values.items r.lists r.spare (vec_capacity r.links - vec_len r.links) (vec_capacity r.values - vec_len r.values) };
}

impl<T: Copy> Rows<T> {
    /// So many lists, all empty, without room for a value. The only error is want of memory.
    pub fn new(alloc: Global, lists: u32) -> Result<Rows<T>, AllocError>
        ensures lists { IfOk result (λ rows. rows.lists ≡ replicate lists []) }
        ensures spare { IfOk result (λ rows. rows.spare ≡ 0) }
    {
        let links = ends_alone(alloc, lists as u64 + 1)?;
        Ok(Rows {
            links,
            values: Vec::new(alloc),
            lists,
            spare: 0,
        })
    }

    /// Makes room for so many more values. The only error is want of memory, and it changes nothing.
    pub fn reserve(&mut self, more: u32) -> Result<(), AllocError>
        ensures lists { self.new.lists ≡ self.old.lists }
        ensures keeps { self.old.spare ≤ self.new.spare }
        ensures room { OnOk result (more ≤ self.new.spare) }
        ensures err { OnErr result (self.new ≡ self.old) }
    {
        self.links.reserve(more as usize)?;
        self.values.reserve(more as usize)?;
        self.spare = self.spare.max(more as u64);
        Ok(())
    }

    /// Puts a value last into a list, and gives its node, which was not live. It takes no memory.
    pub fn push_back(&mut self, list: u32, value: T) -> Node
        requires list { list < length self.old.lists }
        requires room { 1 ≤ self.old.spare }
        ensures lists { self.new.lists ≡ with_last self.old.lists list result.place value }
        ensures spare { self.new.spare ≡ self.old.spare - 1 }
        ensures fresh { value_of self.old.lists result.place ≡ None }
    {
        let place = take_free(&mut self.links, &mut self.values, self.lists as u64, value);
        put_last(&mut self.links, list as u64, place);
        self.spare -= 1;
        Node { place }
    }

    /// Takes the value of a live node out of its list, wherever it stands there. It takes no memory, and leaves room for
    /// another value.
    pub fn unlink(&mut self, node: Node) -> T
        requires { IsTrue (is_some (value_of self.old.lists node.place)) }
        ensures value { value_of self.old.lists node.place ≡ Some result }
        ensures lists { self.new.lists ≡ without self.old.lists node.place }
        ensures spare { self.new.spare ≡ self.old.spare + 1 }
    {
        take_out(&mut self.links, node.place);
        put_last(&mut self.links, self.lists as u64, node.place);
        self.spare += 1;
        self.values[(node.place - self.lists as u64 - 1) as usize]
    }

    /// The node of the list's first value, which is live; none exactly where the list is empty. It takes no memory.
    pub fn first(&self, list: u32) -> Option<Node>
        requires { list < length self.now.lists }
        ensures once { StandOnce self.now.lists }
        ensures node { option_map (λ node. node.place) result ≡ first_of (list_of self.now.lists list) }
        ensures live { IfSome result (λ node. IsTrue (is_some (value_of self.now.lists node.place))) }
    {
        let place = self.links[list as usize].after;
        if place == list as u64 {
            None
        } else {
            Some(Node { place })
        }
    }

    /// The node after a live one in its list, which is live too; none exactly where it is the last. It takes no memory.
    pub fn next(&self, node: Node) -> Option<Node>
        requires { IsTrue (is_some (value_of self.now.lists node.place)) }
        ensures node { option_map (λ node. node.place) result ≡ next_of self.now.lists node.place }
        ensures live { IfSome result (λ node. IsTrue (is_some (value_of self.now.lists node.place))) }
    {
        let place = self.links[node.place as usize].after;
        if place < self.lists as u64 {
            None
        } else {
            Some(Node { place })
        }
    }

    /// The value of a live node. It takes no memory.
    pub fn get(&self, node: Node) -> &T
        requires { IsTrue (is_some (value_of self.now.lists node.place)) }
        ensures { value_of self.now.lists node.place ≡ Some result.now }
    {
        &self.values[(node.place - self.lists as u64 - 1) as usize]
    }

    /// Gives a live node another value. It takes no memory.
    pub fn set(&mut self, node: Node, value: T)
        requires { IsTrue (is_some (value_of self.old.lists node.place)) }
        ensures { self.new ≡ record self.old { lists = with_value self.old.lists node.place value } }
    {
        self.values[(node.place - self.lists as u64 - 1) as usize] = value;
    }
}
