ghost use Rattle.std.specs.Prelude.{◌≡◌, ◌+◌, ◌<◌, ◌≤◌, nat_le, length, take, IfOk, OnOk, OnErr, Some, None, Ok, IsSome, true, false};
ghost use Rattle.std.specs.Prelude.{IfSome, IfNone};
ghost use Rattle.std.specs.Bool.{OnTrue};
ghost use Rattle.std.specs.List.{list_all};
ghost use mathlib.Core.List.{IsPrefix};
ghost use Rattle.asm_storage.specs.declared.call.Answer.TheVariants as answer;
ghost use Rattle.asm_storage.specs.declared.call.Call.TheVariants as call;
ghost use Rattle.asm_storage.specs.declared.call.Reply.TheVariants as reply;
ghost use Rattle.asm_storage.specs.Agents.{moves_seen, next_stood};
ghost use Rattle.asm_storage.specs.History.{fired_move};
ghost use Rattle.asm_storage.specs.Storage.{machine_of, with_fired, with_receipt, last_poll, IsReplyOf, Missed};
ghost use Rattle.asm_storage.specs.Machine.{reply_to};
ghost use Rattle.asm_storage.specs.Part.{IsAsked, IsEntryOf, agent_of, offers_in, misses_in};
ghost use Rattle.asm_storage.specs.Calls.{receipt_at, HasOffered, Ran, IsVersionAfter};
ghost use Rattle.asm_storage.specs.Calls.{is_plain, is_plain_over};
ghost use Rattle.asm_storage.specs.Part.{IsSure, IsJudgedOver, HasWon, IsJudged, HasLostAttempt, IsPartOf, IsTurnOver, HasPolledRow};

use crate::call::{Answer, Call, Reply, fire_call};
use crate::entry::Entry;
use crate::part::AgentPart;
use crate::part::judging::{are_agreed, is_plain, judged, judged_plain};
use crate::part::offering::Asked;
use crate::part::scanning::is_plain_over;
use crate::receipt::Receipt;
use crate::storage::Storage;
use asm_element::Items;
use asm_state::{Named, Scanned};
use asm_update::{Aggregator, Instructions};
use std::alloc::{AllocError, Global};

// Whether all were read at this number or a later one.
fn are_read_from(number: u32, reads: &[Named]) -> bool
    ensures { result ≡ list_all (λ r. nat_le number r.number) reads.now }
{
    reads.iter().all(|named| number <= named.number)
}

impl AgentPart {
    // Polls on, and has the state follow if the move needs it.
    fn make_ready<A: Aggregator + Sync + Drop>(
        &mut self,
        alloc: Global,
        storage: &Storage<A>,
        reads: &[Named],
        scans: &[Scanned],
        instrs: &Instructions,
    ) -> Result<(), AllocError>
        requires { IsPartOf A.meaning storage.now self.old }
        ensures polls { HasPolledRow A.meaning storage.now self.old self.new }
        ensures missed { Missed (agent_of storage.now self.old) (last_poll (agent_of storage.now self.new))
            (agent_of storage.now self.new) }
        ensures level { OnOk result (is_plain_over reads.now scans.now instrs.now ≡ false →
            self.new.state.number ≡ length self.new.progress.seen) }
        ensures unmoved { is_plain_over reads.now scans.now instrs.now ≡ true →
            self.new.state.number ≡ self.old.state.number }
    {
        if is_plain_over(reads, scans, instrs) {
            self.poll(storage);
            return Ok(());
        }
        self.follow_row(alloc, storage)
    }

    // The reply to a fire, where it fires nothing; None where the move is to fire, and there is room.
    fn judge<A: Aggregator + Sync + Drop>(
        &self,
        alloc: Global,
        storage: &Storage<A>,
        reads: &[Named],
        instrs: &Instructions,
    ) -> Result<Option<Reply>, AllocError>
        requires part { IsPartOf A.meaning storage.now self.now }
        requires level { is_plain reads.now instrs.now ≡ false → self.now.state.number ≡ length self.now.progress.seen }
        ensures { IfOk result (
            IsJudged (machine_of A.meaning storage.now) self.now.progress.seen reads.now instrs.now) }
    {
        let is_full = self.progress.is_full();
        if is_plain(reads, instrs) {
            return judged_plain(alloc, is_full, reads, instrs);
        }
        let aggregator = storage.aggregator();
        judged(alloc, aggregator, &self.state, is_full, reads, instrs)
    }

    /// Record the receipt of a call that fired nothing.
    ///
    /// It was judged on the first `stood` of the moves that were seen.
    pub(crate) fn keep<A: Aggregator + Sync + Drop>(
        &mut self,
        storage: &Storage<A>,
        call: Call,
        answer: Answer,
        stood: u32,
    ) -> Result<(), AllocError>
        requires part { IsPartOf A.meaning storage.now self.old }
        requires seen { stood ≤ length self.old.progress.seen }
        requires later { next_stood 0 self.old.receipts.items ≤ stood }
        requires reply { answer ≡
            reply_to (machine_of A.meaning storage.now) (take stood (moves_seen self.old.progress.seen)) call }
        requires quiet { fired_move call answer ≡ None }
        ensures part { IsPartOf A.meaning storage.now self.new }
        ensures id { self.new.id ≡ self.old.id }
        ensures ok { OnOk result (
            agent_of storage.now self.new ≡ with_receipt (agent_of storage.now self.old) (receipt_at stood call answer)) }
        ensures err { OnErr result (agent_of storage.now self.new ≡ agent_of storage.now self.old) }
    {
        self.receipts.push(Receipt {
            call,
            answer,
            stood,
        })?;
        Ok(())
    }

    // Keeps the receipt of a fire that fired nothing.
    fn keep_reply<A: Aggregator + Sync + Drop>(
        &mut self,
        alloc: Global,
        storage: &Storage<A>,
        reads: &Items<Named>,
        instrs: &Instructions,
        reply: &Reply,
    ) -> Result<(), AllocError>
        requires part { IsPartOf A.meaning storage.now self.old }
        requires reply { IsReplyOf A.meaning (agent_of storage.now self.old) (call.Fire reads.now instrs.now)
            (answer.Fire reply.now) }
        requires quiet { fired_move (call.Fire reads.now instrs.now) (answer.Fire reply.now) ≡ None }
        ensures part { IsPartOf A.meaning storage.now self.new }
        ensures id { self.new.id ≡ self.old.id }
        ensures ok { OnOk result (agent_of storage.now self.new ≡ with_receipt (agent_of storage.now self.old)
            (receipt_at (length self.old.progress.seen) (call.Fire reads.now instrs.now) (answer.Fire reply.now))) }
        ensures err { OnErr result (agent_of storage.now self.new ≡ agent_of storage.now self.old) }
    {
        let call = fire_call(alloc, reads, instrs)?;
        let answer = Answer::Fire(reply.copy(alloc)?);
        let stood = self.progress.seen_len();
        self.keep(storage, call, answer, stood)
    }

    // Whether the move is sure to fire: the row has room, there is no scan, each declared read is as new as all that
    // was seen, and the move has puts alone, which agree.
    fn is_sure(&self, reads: &[Named], scans: &[Scanned], instrs: &Instructions) -> bool
        ensures { OnTrue result (IsSure self.now.progress reads.now scans.now instrs.now) }
    {
        !self.progress.is_full()
            && scans.is_empty()
            && are_read_from(self.progress.seen_len(), reads)
            && are_agreed(instrs)
    }

    // Judges a fire: the reply to one that fires nothing, with its receipt; None where the move is to fire, and there is
    // room. If a scan was overtaken, the call that is judged and recorded is the one that declares what was written, so
    // it is stale.
    #[inline(never)]
    fn judge_over<A: Aggregator + Sync + Drop>(
        &mut self,
        alloc: Global,
        storage: &Storage<A>,
        reads: &Items<Named>,
        scans: &[Scanned],
        instrs: &Instructions,
    ) -> Result<Option<Reply>, AllocError>
        requires part { IsPartOf A.meaning storage.now self.old }
        requires level { is_plain_over reads.now scans.now instrs.now ≡ false →
            self.old.state.number ≡ length self.old.progress.seen }
        ensures part { IsPartOf A.meaning storage.now self.new }
        ensures id { self.new.id ≡ self.old.id }
        ensures err { OnErr result (agent_of storage.now self.new ≡ agent_of storage.now self.old) }
        ensures judged { IfOk result (
            IsJudgedOver A.meaning storage.now self.old self.new reads.now scans.now instrs.now) }
    {
        let named = self.named_over(alloc, storage, reads, scans)?;
        match self.judge(alloc, storage, named.as_slice(), instrs)? {
            Some(reply) => {
                self.keep_reply(alloc, storage, &named, instrs, &reply)?;
                Ok(Some(reply))
            }
            None => Ok(None),
        }
    }

    // The same, where a move that is sure to fire isn't judged.
    fn refusal<A: Aggregator + Sync + Drop>(
        &mut self,
        alloc: Global,
        storage: &Storage<A>,
        reads: &Items<Named>,
        scans: &[Scanned],
        instrs: &Instructions,
    ) -> Result<Option<Reply>, AllocError>
        requires part { IsPartOf A.meaning storage.now self.old }
        requires level { is_plain_over reads.now scans.now instrs.now ≡ false →
            self.old.state.number ≡ length self.old.progress.seen }
        ensures part { IsPartOf A.meaning storage.now self.new }
        ensures id { self.new.id ≡ self.old.id }
        ensures err { OnErr result (agent_of storage.now self.new ≡ agent_of storage.now self.old) }
        ensures judged { IfOk result (
            IsJudgedOver A.meaning storage.now self.old self.new reads.now scans.now instrs.now) }
    {
        if self.is_sure(reads.as_slice(), scans, instrs) {
            return Ok(None);
        }
        self.judge_over(alloc, storage, reads, scans, instrs)
    }

    // Attempts to append a move that was judged to fire, and records the receipt if it won: the room for that is made
    // before. If it lost, another entry was seen, and the attempt's own is returned.
    fn offer<A: Aggregator + Sync + Drop, F: FnMut()>(
        &mut self,
        alloc: Global,
        storage: &Storage<A>,
        asked: &mut Asked,
        entry: Box<Entry>,
        number: u32,
        between: &mut F,
    ) -> Result<Option<Box<Entry>>, AllocError>
        requires part { IsPartOf A.meaning storage.now self.old }
        requires room { length self.old.progress.seen < length storage.now.row }
        requires reply { IsReplyOf A.meaning (agent_of storage.now self.old)
            (call.Fire asked.old.reads asked.old.instrs) (answer.Fire (reply.Fired number)) }
        requires instrs { entry.value.instrs ≡ asked.old.instrs }
        requires mine { entry.value.agent ≡ self.old.id }
        requires callable { F.IsAlwaysCallable between.old }

        // The agent stays itself, and unchanged where memory was refused.
        ensures part { IsPartOf A.meaning storage.now self.new }
        ensures id { self.new.id ≡ self.old.id }
        ensures err { OnErr result (agent_of storage.now self.new ≡ agent_of storage.now self.old) }

        // A won attempt has its receipt; a lost one is returned.
        ensures won { IfOk result (λ o. IfNone o (
            agent_of storage.now self.new ≡ with_fired (agent_of storage.now self.old)
            (receipt_at (length self.old.progress.seen) (call.Fire asked.old.reads asked.old.instrs)
            (answer.Fire (reply.Fired number))) entry.value.instrs)) }
        ensures lost { IfOk result (λ o. IfSome o (λ back. HasLostAttempt storage.now self.old self.new)) }
        ensures back { IfOk result (λ o. IfSome o (λ back. back.value ≡ entry.value)) }
        ensures kept { IfOk result (λ o. IfSome o (λ back. asked.new ≡ asked.old)) }

        // The closure was called once, unless memory was refused.
        ensures callable { F.IsAlwaysCallable between.new }
        ensures called { IfOk result (λ o. F.step between.old tt between.new) }
        ensures uncalled { OnErr result (between.new ≡ between.old) }
    {
        self.receipts.reserve(1)?;
        let stood = self.progress.seen_len();
        between();
        match self.progress.try_offer(storage.row(), entry) {
            Ok(()) => {
                let receipt = Receipt {
                    call: asked.take_call(alloc),
                    answer: Answer::Fire(Reply::Fired(number)),
                    stood,
                };
                self.receipts.push(receipt).unwrap();
                Ok(None)
            }
            Err(entry) => Ok(Some(entry)),
        }
    }

    // Attempts to append the move, which was judged to fire; None if the attempt lost. Its entry is the one that an
    // earlier turn left, or is made here.
    fn attempt<A: Aggregator + Sync + Drop, F: FnMut()>(
        &mut self,
        alloc: Global,
        storage: &Storage<A>,
        asked: &mut Asked,
        between: &mut F,
    ) -> Result<Option<Reply>, AllocError>
        requires part { IsPartOf A.meaning storage.now self.old }
        requires room { length self.old.progress.seen < length storage.now.row }
        requires reply { IsReplyOf A.meaning (agent_of storage.now self.old)
            (call.Fire asked.old.reads asked.old.instrs)
            (answer.Fire (reply.Fired (length self.old.progress.seen + 1))) }
        requires pending { IfSome asked.old.entry (λ b. IsEntryOf self.old.id asked.old.instrs b.value) }
        requires callable { F.IsAlwaysCallable between.old }

        // The agent stays itself, and unchanged where memory was refused.
        ensures part { IsPartOf A.meaning storage.now self.new }
        ensures id { self.new.id ≡ self.old.id }
        ensures err { OnErr result (agent_of storage.now self.new ≡ agent_of storage.now self.old) }

        // The attempt won or lost, and the fire is asked for with the entry of a lost one.
        ensures won { IfOk result (λ o. IfSome o (
            HasWon storage.now self.old self.new asked.old.reads asked.old.instrs)) }
        ensures lost { IfOk result (λ o. IfNone o (HasLostAttempt storage.now self.old self.new)) }
        ensures pending { IfOk result (λ o. IfNone o (
            IsAsked self.old.id asked.old.reads asked.old.instrs asked.new)) }
        ensures kept { result ≡ Ok None → IsSome asked.new.entry }

        // The closure was called once, unless memory was refused.
        ensures callable { F.IsAlwaysCallable between.new }
        ensures called { IfOk result (λ o. F.step between.old tt between.new) }
        ensures uncalled { OnErr result (between.new ≡ between.old) }
    {
        // Proof: the capacity is a `u32`: the sum below needs it.
        let _capacity = storage.row().capacity();
        let number = self.progress.seen_len() + 1;
        let entry = asked.take_entry(alloc, self.id)?;
        match self.offer(alloc, storage, asked, entry, number, between)? {
            None => Ok(Some(Reply::Fired(number))),
            Some(back) => {
                asked.entry = Some(back);
                Ok(None)
            }
        }
    }

    /// Take one turn of a fire: return the reply, or None if an attempt was lost.
    pub(crate) fn turn<A: Aggregator + Sync + Drop, F: FnMut()>(
        &mut self,
        alloc: Global,
        storage: &Storage<A>,
        asked: &mut Asked,
        scans: &[Scanned],
        between: &mut F,
    ) -> Result<Option<Reply>, AllocError>
        requires part { IsPartOf A.meaning storage.now self.old }
        requires pending { IfSome asked.old.entry (λ b. IsEntryOf self.old.id asked.old.instrs b.value) }
        requires callable { F.IsAlwaysCallable between.old }

        // The agent stays itself, what it has seen stays seen, and where memory was refused it has looked on alone.
        ensures part { IsPartOf A.meaning storage.now self.new }
        ensures id { self.new.id ≡ self.old.id }
        ensures seen { IsPrefix self.old.progress.seen self.new.progress.seen }
        ensures err { OnErr result (HasPolledRow A.meaning storage.now self.old self.new) }

        // It was answered, or an attempt was lost, and the fire is still asked for.
        ensures turn { IfOk result (
            IsTurnOver A.meaning storage.now self.old self.new asked.old.reads scans.now asked.old.instrs) }
        ensures stands { IfOk result (λ o. IfSome o (IsVersionAfter (agent_of storage.now self.old)
            (agent_of storage.now self.new) (is_plain_over asked.old.reads scans.now asked.old.instrs))) }
        ensures unmoved { is_plain_over asked.old.reads scans.now asked.old.instrs ≡ true →
            self.new.state.number ≡ self.old.state.number }
        ensures onward { self.old.state.number ≤ self.new.state.number }
        ensures pending { IfOk result (λ o. IfNone o (
            IsAsked self.old.id asked.old.reads asked.old.instrs asked.new)) }

        // Attempts and misses are counted, and the closure was called as often as there were attempts.
        ensures counted { HasOffered (agent_of storage.now self.old) (agent_of storage.now self.new)
            (offers_in result) (misses_in (agent_of storage.now self.new) result) }
        ensures callable { F.IsAlwaysCallable between.new }
        ensures calls { Ran (λ f g. F.step f tt g) between.old (offers_in result) between.new }
    {
        self.make_ready(alloc, storage, asked.reads.as_slice(), scans, &asked.instrs)?;
        match self.refusal(alloc, storage, &asked.reads, scans, &asked.instrs)? {
            Some(reply) => Ok(Some(reply)),
            None => self.attempt(alloc, storage, asked, between),
        }
    }
}
