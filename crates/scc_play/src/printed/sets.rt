//! What is printed of a set.

use crate::printed::Printed;
use crate::texts::add_key_reply_line;
use scc_calls::{Reply, SetCall};
use scc_common::Verdict;
use scc_owned_set::Owned;
use std::alloc::AllocError;
use std::fmt::Write;
use std::hash::BuildHasher;

impl<H: BuildHasher> Printed for Owned<u64, H> {
    type Item = u64;

    ghost use Rattle.std.proofs.Common.{rules};
    ghost use Rattle.scc_play.specs.Output.{key_line, key_reply_line};
    ghost use Rattle.scc_common.specs.Contents.{entries};
    ghost use Rattle.scc_calls.specs.declared.replies.Reply.TheVariants.{Count};

    ghost shown = { entries };

    ghost reply_line = { key_reply_line };

    ghost item_line = { key_line };

    ghost count_reply = { Count };

    ghost equal_calls = { λ a b h. Prim.search rules };

    ghost equal_replies = { λ a b h. Prim.search rules };

    ghost exact_calls = { λ a b h. Prim.search rules };

    ghost exact_replies = { λ a b h. Prim.search rules };

    fn take_items(&mut self, items: &mut Vec<u64>) -> Result<(), AllocError> {
        items.reserve(self.len())?;
        if self.iter_mut_sync(|_| Verdict::Take, items).is_err() {
            return Err(AllocError);
        }
        Ok(())
    }

    fn add_reply(output: &mut String, reply: Reply<u64, ()>) -> Result<(), AllocError> {
        add_key_reply_line(output, reply)
    }

    fn add_item(output: &mut String, item: u64) -> Result<(), AllocError> {
        writeln!(output, "{item}")
    }

    fn count_reply(count: usize) -> Reply<u64, ()> {
        Reply::Count(count)
    }

    fn same_call(call: &SetCall<u64>) -> SetCall<u64> {
        *call
    }

    fn same_reply(reply: &Reply<u64, ()>) -> Reply<u64, ()> {
        *reply
    }
}
