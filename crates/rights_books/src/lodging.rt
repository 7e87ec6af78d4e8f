//! All that is lodged in a file at once: a call takes it into its hand while it works on the file, and lodges it again.
ghost use Rattle.std.specs.Prelude.{◌≡◌, [], ◌++◌};

use crate::account::{CallAccount, FileAccount};
use crate::books::Books;
use std::marker::Brand;

impl Books {
    /// Takes all tickets and tokens that are lodged in a file into the hand.
    pub fn unlodge_all(&self, file: &mut FileAccount, hand: &mut CallAccount)
        requires books { (file.old.book ≡ self.now.book) × (hand.old.book ≡ self.now.book) }
        ensures file { file.new ≡ record file.old { tickets = []; tokens = [] } }
        ensures hand { hand.new ≡ record hand.old {
          tickets = hand.old.tickets ++ file.old.tickets;
          tokens = hand.old.tokens ++ file.old.tokens;
        } }
    {
        self.exchange::<(), Brand>(&mut file.holder, &mut hand.holder, &());
    }

    /// Lodges all tickets and tokens that are in hand in a file.
    pub fn lodge_all(&self, file: &mut FileAccount, hand: &mut CallAccount)
        requires books { (file.old.book ≡ self.now.book) × (hand.old.book ≡ self.now.book) }
        ensures file { file.new ≡ record file.old {
          tickets = file.old.tickets ++ hand.old.tickets;
          tokens = file.old.tokens ++ hand.old.tokens;
        } }
        ensures hand { hand.new ≡ record hand.old { tickets = []; tokens = [] } }
    {
        self.exchange::<(), Brand>(&mut file.holder, &mut hand.holder, &());
    }
}
