//! What stands ready for the files of a volume that is mounted.
ghost use Rattle.std.specs.Prelude.{◌≡◌, ◌+◌, None, Some, IsSome, slice_index_or, slice_set, vec_len};
ghost use Rattle.mount_blocks.specs.TreeGoods.{goods_weight, AreLeft};

use std::marker::Model;
use std::snapshot::Snapshot;
use tickets::NidToken;

/// The tickets of the blocks that files name, each at its address, and the tokens of their nodes, each at its number, which
/// go out one by one; `{ tickets; tokens; all }` to contracts, where `all` is what was there at first.
pub struct Stock<L> {
    tickets: Vec<Option<L>>,
    tokens: Vec<Option<NidToken>>,
    all_tickets: Snapshot<Vec<Option<L>>>,
    all_tokens: Snapshot<Vec<Option<NidToken>>>,
}

impl<L> Model for Stock<L> {
    ghost use Rattle.mount_blocks.specs.TreeGoods.{Goods, AreLeft};

    ghost Value = { Goods L };

    ghost view = { λ s. record { tickets = s.tickets.items; tokens = s.tokens.items; all = record { tickets = s.all_tickets.value.items; tokens = s.all_tokens.value.items } } };

    ghost invariant = { λ s. AreLeft s.tickets.items s.all_tickets.value.items × AreLeft s.tokens.items s.all_tokens.value.items };
}

impl<L> Stock<L> {
    /// A stock of these tickets and tokens.
    pub fn of(tickets: Vec<Option<L>>, tokens: Vec<Option<NidToken>>) -> Stock<L>
        ensures tickets { result.tickets ≡ tickets.items }
        ensures tokens { result.tokens ≡ tokens.items }
        ensures all { result.all ≡ record { tickets = tickets.items; tokens = tokens.items } }
    {
        let all_tickets = Snapshot::of(&tickets);
        let all_tokens = Snapshot::of(&tokens);
        Stock {
            tickets,
            tokens,
            all_tickets,
            all_tokens,
        }
    }

    /// Tells what holds of every stock: what is left of it stands where it stood.
    pub fn law(&self)
        ensures tickets { AreLeft self.now.tickets self.now.all.tickets }
        ensures tokens { AreLeft self.now.tokens self.now.all.tokens }
    {
        let _ = &self.tickets;
    }

    /// The ticket at an address goes out.
    pub fn take_ticket(&mut self, address: u32) -> L
        requires there { IsSome (slice_index_or self.old.tickets address None) }
        ensures ticket { slice_index_or self.old.tickets address None ≡ Some result }
        ensures first { slice_index_or self.old.all.tickets address None ≡ Some result }
        ensures stock { self.new ≡ record self.old { tickets = slice_set self.old.tickets address None } }
    {
        match self.tickets[address as usize].take() {
            Some(ticket) => ticket,
            None => unreachable!(),
        }
    }

    /// The token at a number goes out.
    pub fn take_token(&mut self, number: u32) -> NidToken
        requires there { IsSome (slice_index_or self.old.tokens number None) }
        ensures token { slice_index_or self.old.tokens number None ≡ Some result }
        ensures first { slice_index_or self.old.all.tokens number None ≡ Some result }
        ensures stock { self.new ≡ record self.old { tokens = slice_set self.old.tokens number None } }
    {
        match self.tokens[number as usize].take() {
            Some(token) => token,
            None => unreachable!(),
        }
    }

    /// Ends a stock of which nothing is left.
    pub fn end(self)
        requires nothing { goods_weight (λ _. 1) (λ _. 1) self ≡ 0 }
    {
        let Stock {
            tickets,
            tokens,
            all_tickets: _,
            all_tokens: _,
        } = self;
        free_table(tickets);
        free_table(tokens);
    }
}

ghost use Rattle.geometry.specs.Weights.{weigh};
ghost use Rattle.mount_blocks.specs.TreeGoods.{in_place};

/// Frees a table where nothing stands.
pub fn free_table<T>(mut table: Vec<Option<T>>)
    requires { weigh (in_place (λ _. 1)) table.items ≡ 0 }
{
    while let Some(place) = table.pop() {
        match place {
            None => {}
            Some(_) => unreachable!(),
        }
    }
    table.destroy_empty();
}
