//! Containers of numbers whose replies and contents are printed.
ghost use Rattle.std.specs.Prelude.{◌≡◌, ℕ, List, ◌++◌, OnOk, true};
ghost use Rattle.std.specs.List.Sorted.{IsPermutation};
ghost use Rattle.std.specs.String.{string_bytes};
ghost use Rattle.scc_calls.specs.Copies.{ClonesEqual};

mod caches;
mod indexes;
mod maps;
mod sets;

use scc_calls::WholeCalls;
use std::alloc::AllocError;

/// A container whose replies and contents are printed.
pub trait Printed: WholeCalls {
    /// An item of the contents, for which one line is printed.
    type Item: Copy + Ord;

    // The items of the contents, in any order.
    ghost shown: { Self → List Self.Item };

    ghost reply_line: { Self.Reply → List ℕ };

    ghost item_line: { Self.Item → List ℕ };

    // The reply with a count.
    ghost count_reply: { ℕ → Self.Reply };

    /// Moves all items out of the container to the end of `items`. Fails if memory is refused.
    fn take_items(&mut self, items: &mut Vec<Self::Item>) -> Result<(), AllocError>
        ensures { OnOk result ((more : List Self.Item) × (items.new.items ≡ items.old.items ++ more) × IsPermutation
            (shown self.old) more) };

    /// Adds the line of a reply to `output`. Fails if memory is refused.
    fn add_reply(output: &mut String, reply: Self::Reply) -> Result<(), AllocError>
        ensures { OnOk result (string_bytes output.new ≡ string_bytes output.old ++ reply_line reply) };

    /// Adds the line of an item to `output`. Fails if memory is refused.
    fn add_item(output: &mut String, item: Self::Item) -> Result<(), AllocError>
        ensures { OnOk result (string_bytes output.new ≡ string_bytes output.old ++ item_line item) };

    /// Returns the reply with the count `count`.
    fn count_reply(count: usize) -> Self::Reply
        ensures { result ≡ count_reply count };

    /// Returns a copy of the call, which is the very same call.
    fn same_call(call: &Self::Call) -> Self::Call
        ensures { result ≡ call.now };

    /// Returns a copy of the reply, which is the very same reply.
    fn same_reply(reply: &Self::Reply) -> Self::Reply
        ensures { result ≡ reply.now };

    // A clone of a call equals the call.
    ghost equal_calls: { ClonesEqual Self.Call.is_clone Self.Call.eq };

    // A clone of a reply equals the reply.
    ghost equal_replies: { ClonesEqual Self.Reply.is_clone Self.Reply.eq };

    // Calls that compare as equal are the same.
    ghost exact_calls: { (a b : Self.Call) → Self.Call.eq a b ≡ true → a ≡ b };

    // Replies that compare as equal are the same.
    ghost exact_replies: { (a b : Self.Reply) → Self.Reply.eq a b ≡ true → a ≡ b };
}
