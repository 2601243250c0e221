//! Batches of datagrams that are received at once.

ghost use Rattle.std.specs.Prelude.{◌≡◌, ◌++◌, IfOk, IsOk, OnErr, OnOk, Some, length, slice_range};
ghost use Rattle.std.specs.Prelude.{take};
ghost use Rattle.stun_endpoint.specs.Batches.{FollowOneAnother, TakesRoom, outcome_at, outcomes_at};
ghost use Rattle.stun_endpoint.specs.Batches.{received_all, received_one};

use crate::batch::{Answers, Datagram, ReceivedAt};
use crate::server::Server;
use crate::unix_time::UnixTime;
use crate::users::Users;
use std::alloc::AllocError;
use stun_base::memory::Memory;

impl<A: Memory> Server<A> {
    /// Judges the datagrams of a batch, each like `receive`, and writes the responses into one
    /// buffer.
    ///
    /// Each result is what `receive` returns for its datagram at this time. The results replace the
    /// contents of `results`, and the responses replace the contents of `answers`. The memory of
    /// both is used again. So once both have grown to the size of a batch, a batch allocates only
    /// what `receive_into` allocates for its datagrams.
    ///
    /// If your socket sends several datagrams at once, a batch spares you a separate buffer for
    /// each response that has not been sent yet. If you send each response before you receive the
    /// next datagram, call `receive_into`, which does the same work.
    ///
    /// Fails if an allocation fails. The results then cover only the first datagrams, whose
    /// responses are in the buffer. Send these responses. Then pass the remaining datagrams again,
    /// or drop them: over UDP their clients retransmit them.
    pub fn receive_many<'a>(
        &self,
        datagrams: &[Datagram<'a>],
        now: UnixTime,
        users: &'a Users<A>,
        answers: &mut Answers<A>,
        results: &mut Vec<ReceivedAt<'a, A>, A>,
    ) -> Result<(), AllocError>
        // Each result is what `receive` returns for its datagram alone.
        ensures received { outcomes_at answers.new results.new.items
            ≡ received_all self.now (Some users.now.registered) now
            (take (length results.new.items) datagrams.now) }
        ensures all { OnOk result (length results.new.items ≡ length datagrams.now) }
        ensures ranges { FollowOneAnother 0 results.new.items (length answers.new) }
        ensures granted { A.grants → IsOk result }
    {
        answers.clear();
        results.clear();
        for datagram in datagrams {
            A::reserve(results, 1)?;
            let received = self.receive_onto(datagram, now, users, answers)?;
            results.push_reserved(received);
        }
        Ok(())
    }

    /// Judges a datagram, and appends its response to `answers`. If the call fails, `answers` is
    /// unchanged.
    fn receive_onto<'a>(
        &self,
        datagram: &Datagram<'a>,
        now: UnixTime,
        users: &'a Users<A>,
        answers: &mut Answers<A>,
    ) -> Result<ReceivedAt<'a, A>, AllocError>
        ensures received { IfOk result (λ one. outcome_at answers.new one
            ≡ received_one self.now (Some users.now.registered) now datagram.now) }
        ensures start { IfOk result (λ one. one.start ≡ length answers.old) }
        ensures end { IfOk result (λ one. one.end ≡ length answers.new) }
        ensures room { IfOk result (λ one. TakesRoom one.received one.start one.end) }
        ensures kept { IfOk result (λ one. answers.new
            ≡ answers.old ++ slice_range answers.new one.start one.end) }
        ensures err { OnErr result (answers.new ≡ answers.old) }
        ensures granted { A.grants → IsOk result }
    {
        let page = &mut answers.page;
        let received = self.receive_into(datagram.bytes, datagram.from, now, users, page)?;
        let start = answers.bytes.len();
        A::extend(&mut answers.bytes, answers.page.as_slice())?;
        let end = answers.bytes.len();
        Ok(ReceivedAt {
            received,
            start,
            end,
        })
    }
}
