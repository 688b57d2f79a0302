//! How the change of one trade that was made last is taken back.

ghost use Rattle.std.specs.Prelude.{◌≡◌, ◌-◌, length, take, IsTrue, Some};
ghost use Rattle.command_types.specs.Trades.{trade_numbered, with_row};
ghost use Rattle.product_book.specs.Book.{may_take_back, MayPutBack};

use crate::Book;
use crate::row::{drop_last, ended, put_row, row_at};
use command_types::TradeRow;

impl Book {
    /// Takes the last trade back, which a party submitted. It takes no memory.
    pub fn take_back(&mut self)
        requires { IsTrue (may_take_back (trade_numbered self.old.rows (length self.old.rows))) }
        ensures { self.new ≡ record self.old { rows = take (length self.old.rows - 1) self.old.rows } }
    {
        let number = self.rows.len() as u64;
        let row = row_at(&self.rows, number);
        let gone = ended(row);
        self.sums.settle(&row, &gone);
        self.links.forget_last();
        drop_last(&mut self.rows);
        self.submitted -= 1;
    }

    /// Puts a trade back to an earlier form of it, which counts as it does now. It takes no memory.
    pub fn put_back(&mut self, trade: u64, was: &TradeRow)
        requires { MayPutBack (trade_numbered self.old.rows trade) was.now }
        ensures { self.new ≡ record self.old { rows = with_row self.old.rows trade (Some was.now) } }
    {
        let row = row_at(&self.rows, trade);
        self.sums.settle(&row, was);
        put_row(&mut self.rows, trade, *was);
    }
}
