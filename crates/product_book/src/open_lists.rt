//! Lists of the numbers of trades that have not ended, in one pool of nodes. A number is put last into a list, and is
//! taken out from wherever it stands, by the node that is kept for it.

ghost use Rattle.std.specs.Prelude.{◌≡◌, ◌+◌, ◌-◌, ◌<◌, ◌≤◌, [], length, max, replicate, option_map, is_some, IsTrue, Some, OnOk, OnErr, IfOk, IfSome};
ghost use Rattle.linked_rows.specs.Rows.{list_of, value_of, first_of, next_of, StandOnce};
ghost use Rattle.product_book.specs.OpenLists.{numbers_of, with_number, without_number};

use linked_rows::{Node, Rows};
use std::alloc::{AllocError, Global};
use std::marker::Model;

/// The lists, and for each trade's number its node while the trade is in a list.
#[derive(Drop)]
pub(super) struct OpenLists {
    rows: Rows<u64>,
    nodes: Vec<Option<Node>>,
    size: u32,
    spare: u64,
}

impl Model for OpenLists {
    ghost use Rattle.std.specs.Prelude.{◌-◌, length, vec_len, vec_capacity};
    ghost use Rattle.product_book.specs.OpenLists.{OpenView, AreNoted};

    ghost Value = { OpenView };

    ghost view = { λ o. record { lists = o.rows.lists; count = length o.nodes.items; spare = o.spare } };

    ghost invariant = { λ o. AreNoted o.rows.lists o.nodes.items o.size o.spare o.rows.spare (vec_capacity o.nodes - vec_len o.nodes) };
}

impl OpenLists {
    /// So many lists, of no trades. The only error is want of memory.
    pub(super) fn new(alloc: Global, lists: u32) -> Result<OpenLists, AllocError>
        ensures lists { IfOk result (λ made. made.lists ≡ replicate lists []) }
        ensures count { IfOk result (λ made. made.count ≡ 0) }
        ensures spare { IfOk result (λ made. made.spare ≡ 0) }
    {
        Ok(OpenLists {
            rows: Rows::new(alloc, lists)?,
            nodes: Vec::new(alloc),
            size: lists,
            spare: 0,
        })
    }

    /// Makes room for so many more trades. The only error is want of memory, and it changes nothing.
    pub(super) fn reserve(&mut self, trades: u32) -> Result<(), AllocError>
        ensures same { self.new ≡ record self.old { spare = self.new.spare } }
        ensures room { OnOk result (self.new.spare ≡ max self.old.spare trades) }
        ensures err { OnErr result (self.new ≡ self.old) }
    {
        self.rows.reserve(trades)?;
        self.nodes.reserve(trades as usize)?;
        self.spare = self.spare.max(trades as u64);
        Ok(())
    }

    /// Puts the next trade last into a list. It takes no memory.
    pub(super) fn push(&mut self, list: u32)
        requires list { list < length self.old.lists }
        requires room { 1 ≤ self.old.spare }
        ensures numbers { numbers_of self.new.lists ≡ with_number (numbers_of self.old.lists) list (self.old.count + 1) }
        ensures count { self.new.count ≡ self.old.count + 1 }
        ensures spare { self.new.spare ≡ self.old.spare - 1 }
    {
        let number = self.nodes.len() as u64 + 1;
        let node = self.rows.push_back(list, number);
        self.nodes.push_reserved(Some(node));
        self.spare -= 1;
    }

    /// Takes a trade out of the list in which it stands, if it stands in one. It takes no memory.
    pub(super) fn take_out(&mut self, number: u64)
        requires some { 1 ≤ number }
        requires there { number ≤ self.old.count }
        ensures numbers { numbers_of self.new.lists ≡ without_number (numbers_of self.old.lists) number }
        ensures count { self.new.count ≡ self.old.count }
        ensures spare { self.new.spare ≡ self.old.spare }
    {
        let at = (number - 1) as usize;
        if let Some(node) = self.nodes[at] {
            self.rows.unlink(node);
            self.nodes[at] = None;
        }
    }

    /// Takes the last trade that was put in out of the count, and out of its list if it stands in one. It takes no memory.
    pub(super) fn forget_last(&mut self)
        requires { 1 ≤ self.old.count }
        ensures numbers { numbers_of self.new.lists ≡ without_number (numbers_of self.old.lists) self.old.count }
        ensures count { self.new.count + 1 ≡ self.old.count }
        ensures spare { self.new.spare ≡ self.old.spare }
    {
        let at = self.nodes.len() - 1;
        let Some(node) = self.nodes[at] else {
            self.nodes.truncate(at);
            return;
        };
        self.rows.unlink(node);
        self.nodes.truncate(at);
    }

    /// The node of a list's first trade; none exactly where the list is empty, or where there is no such list.
    pub(super) fn first(&self, list: u32) -> Option<Node>
        ensures low { IfSome result (λ _. list < length self.now.lists) }
        ensures once { IfSome result (λ _. StandOnce self.now.lists) }
        ensures node { option_map (λ node. node.place) result ≡ first_of (list_of self.now.lists list) }
        ensures live { IfSome result (λ node. IsTrue (is_some (value_of self.now.lists node.place))) }
    {
        if list >= self.size {
            return None;
        }
        self.rows.first(list)
    }

    /// The node after one in its list; none exactly where it is the last.
    pub(super) fn next(&self, node: Node) -> Option<Node>
        requires { IsTrue (is_some (value_of self.now.lists node.place)) }
        ensures node { option_map (λ node. node.place) result ≡ next_of self.now.lists node.place }
        ensures live { IfSome result (λ node. IsTrue (is_some (value_of self.now.lists node.place))) }
    {
        self.rows.next(node)
    }

    /// The number of the trade at a node.
    pub(super) fn number_at(&self, node: Node) -> u64
        requires { IsTrue (is_some (value_of self.now.lists node.place)) }
        ensures { value_of self.now.lists node.place ≡ Some result }
    {
        *self.rows.get(node)
    }
}
