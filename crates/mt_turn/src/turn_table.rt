//! The steps of a turn, by the bare seat of the table.
ghost use Rattle.std.specs.Prelude.{◌≡◌, ℕ, ◌+◌, ◌%◌, ◌^◌, ◌<◌, ◌≤◌, [], ◌∷◌, length, IfOk, IfErr, Some, None};
ghost use Rattle.atomic_table.specs.Table.{rest};
ghost use Rattle.mt_turn.specs.declared.view.Phase.TheVariants.{Idle, Waits, Holds};
ghost use Rattle.mt_turn.specs.Views.{first_view, with_phase, giver, newcomer, taker, up_to};
ghost use Rattle.mt_turn.specs.Lending.{HasTurn, Lent, Grows, Left, AllJoined, ClosesHistory};

use crate::plays::{Add, Cut, Draw, Glue, Number, Pass, Peek};
use crate::recorded::Recorded;
use crate::rule::Rule;
use crate::view::View;
use atomic_table::{Refused, Table};
use mt_memory::Memory;
use std::alloc::Global;
use std::array;
use std::hint::spin_loop;
use std::snapshot::Snapshot;
use std::sync::Wait;
use std::sync::atomic::{AtomicU64, Ordering};

/// A seat of the table behind a turn.
pub(crate) type Token<T> = atomic_table::Seat<
    Option<T>,
    View<<T as Recorded>::Entry, <T as Recorded>::Fixed>,
>;

/// The word with the remainder of the next ticket.
const TICKET: usize = 0;

/// The word with the remainder of the ticket being served.
const SERVING: usize = 1;

/// The word with the number of entries.
const COUNT: usize = 2;

/// The word with the number of the next seat.
const NUMBERS: usize = 3;

/// The slot with the value.
const SLOT: usize = 0;

/// How many words there are to sleep on.
const BEDS: usize = 64;

/// How often a thread looks before it makes ready to sleep.
const LOOKS: u32 = 30;

/// The place of a ticket's word. Tickets that follow each other have words that are 64 bytes apart.
fn bed_of(ticket: u64) -> usize
    ensures { result < 64 }
{
    ((ticket % 8) * 8 + (ticket / 8) % 8) as usize
}

/// What a thread with this ticket writes into its word before it sleeps. It isn't 0, and tickets that are out at one time and have one word
/// have different marks.
fn mark_of(ticket: u64) -> u64 {
    (ticket / 64) % 0x4000_0000 * 2 + 1
}

/// The table behind a turn: four words, and a slot with the value. Beside it are the words to sleep on, of which no clause speaks.
#[derive(Drop)]
pub(crate) struct TurnTable<T: Recorded> {
    pub(crate) table: Table<
        Option<T>,
        View<<T as Recorded>::Entry, <T as Recorded>::Fixed>,
        Snapshot<T>,
        Rule<T>,
        Global,
    >,
    beds: [AtomicU64; BEDS],
    ghost counts: { (table.shared.table_id.words ≡ 4) × (table.shared.table_id.slots ≡ 1) },
}

impl<T: Recorded> TurnTable<T> {
    pub(crate) fn open(alloc: Global, value: T) -> Result<(TurnTable<T>, Token<T>), (T, Memory)>
        requires empty { T.history value ≡ [] }
        ensures ok { IfOk result (λ r. (r.1.table_id ≡ r.0.table.shared.table_id) × (r.1.me ≡ (first_view (T.fixed value), []))) }
        ensures err { IfErr result (λ e. e.0 ≡ value) }
    {
        let about = Snapshot::of(&value);
        let mut slots = Vec::new(alloc);
        if let Err(failed) = slots.push(Some(value)) {
            slots.destroy_empty();
            return Err((failed.value.unwrap(), Memory));
        }
        match Table::new(alloc, &[0, 0, 0, 1], slots, &about) {
            Ok((table, token)) => {
                let beds = array::from_fn(|_| AtomicU64::new(0));
                Ok((TurnTable { table, beds }, token))
            }
            Err(Refused { mut slots }) => {
                let value = slots.pop().unwrap().unwrap();
                slots.destroy_empty();
                Err((value, Memory))
            }
        }
    }

    /// Draws a ticket, and gives its remainder.
    fn draw(&self, token: &mut Token<T>) -> u64
        requires own { token.old.table_id ≡ self.now.table.shared.table_id }
        requires idle { token.old.me.0.phase ≡ Idle }
        ensures own { token.new.table_id ≡ token.old.table_id }
        ensures waits { (t : ℕ) × (t % 2 ^ 64 ≡ result) × (token.new.me ≡ (with_phase token.old.me.0 (Waits t), token.old.me.1)) }
    {
        self.table.shared.fetch_add::<Draw>(token, TICKET, 1)
    }

    /// Takes the value out of the slot that the seat has.
    fn take(&self, token: &mut Token<T>) -> T
        requires own { token.old.table_id ≡ self.now.table.shared.table_id }
        requires taken { (x : T) × (token.old.me.1 ≡ (0, Some x) ∷ rest token.old.me.1) }
        ensures own { token.new.table_id ≡ token.old.table_id }
        ensures was { token.old.me.1 ≡ (0, Some result) ∷ rest token.old.me.1 }
        ensures empty { token.new.me ≡ (token.old.me.0, (0, None) ∷ rest token.old.me.1) }
    {
        self.table.shared.exchange(token, SLOT, None).unwrap()
    }

    /// Looks a few times, and says whether the ticket is being served.
    fn watch(&self, ticket: u64) -> bool {
        for _ in 0..LOOKS {
            if self.table.shared.peek(SERVING) == ticket {
                return true;
            }
            spin_loop();
        }
        false
    }

    /// Wakes the thread that is served, if it sleeps or is about to.
    fn wake_next(&self) {
        let bed = &self.beds[bed_of(self.table.shared.peek(SERVING))];
        if bed.load(Ordering::SeqCst) != 0 {
            bed.store(0, Ordering::SeqCst);
            bed.wake_all();
        }
    }

    /// Looks until the ticket is the one being served, and takes the value.
    ///
    /// After some looks that find another ticket it marks its word, looks once more, and sleeps while the word has its mark. So no wake is
    /// lost: who passes the turn on after that look finds a mark, or the word was cleared after the mark was written.
    fn wait<R: Wait>(&self, rt: &R, token: &mut Token<T>, ticket: u64) -> T
        requires own { token.old.table_id ≡ self.now.table.shared.table_id }
        requires waits { (t : ℕ) × (t % 2 ^ 64 ≡ ticket) × (token.old.me.0.phase ≡ Waits t) }
        ensures own { token.new.table_id ≡ token.old.table_id }
        ensures holds { (t : ℕ) × (token.new.me ≡ (with_phase token.old.me.0 (Holds t (T.history result)), (0, None) ∷ token.old.me.1)) }
        ensures lent { Lent T.history T.number T.fixed token.old.me.0 result }
    {
        let bed = &self.beds[bed_of(ticket)];
        let mark = mark_of(ticket);
        for _ in rt.forever() {
            if !self.watch(ticket) {
                bed.store(mark, Ordering::SeqCst);
            }
            let served = self.table.shared.load::<Peek<T>>(token, SERVING);
            if served == ticket {
                return self.take(token);
            }
            bed.park(rt, (mark & 0xffff_ffff) as u32);
        }
        unreachable!()
    }

    pub(crate) fn enter<R: Wait>(&self, rt: &R, token: &mut Token<T>) -> T
        requires own { token.old.table_id ≡ self.now.table.shared.table_id }
        requires idle { token.old.me.0.phase ≡ Idle }
        ensures own { token.new.table_id ≡ token.old.table_id }
        ensures holds { (t : ℕ) × (token.new.me ≡ (with_phase token.old.me.0 (Holds t (T.history result)), (0, None) ∷ token.old.me.1)) }
        ensures lent { Lent T.history T.number T.fixed token.old.me.0 result }
    {
        let ticket = self.draw(token);
        self.wait(rt, token, ticket)
    }

    /// Puts a value into the slot that the seat has.
    fn put(&self, token: &mut Token<T>, value: T)
        requires own { token.old.table_id ≡ self.now.table.shared.table_id }
        requires empty { token.old.me.1 ≡ (0, None) ∷ rest token.old.me.1 }
        ensures own { token.new.table_id ≡ token.old.table_id }
        ensures there { token.new.me ≡ (token.old.me.0, (0, Some value) ∷ rest token.old.me.1) }
    {
        let was = self.table.shared.exchange(token, SLOT, Some(value));
        let None = was else { unreachable!() };
    }

    /// Puts the value back, counts its entries, and passes the turn on.
    ///
    /// It wakes only the thread with the next ticket, and none where that one doesn't sleep.
    pub(crate) fn leave(&self, token: &mut Token<T>, value: T, lent: Snapshot<T>, count: u64)
        requires own { token.old.table_id ≡ self.now.table.shared.table_id }
        requires holds { HasTurn token.old.me.0 (T.history lent.value) }
        requires empty { token.old.me.1 ≡ (0, None) ∷ [] }
        requires counted { count ≡ length (T.history lent.value) }
        requires fixed { Some (T.fixed value) ≡ token.old.me.0.fixed }
        requires grows { Grows T.number token.old.me.0.number (T.history lent.value) (T.history value) }
        requires room { length (T.history value) ≤ 2 ^ 32 }
        ensures own { token.new.table_id ≡ token.old.table_id }
        ensures idle { (token.new.me.0.phase ≡ Idle) × (token.new.me.1 ≡ []) }
        ensures left { Left T.number token.old.me.0 (T.history lent.value) (T.history value) token.new.me.0 }
    {
        let _ = lent;
        let added = value.count() - count;
        self.put(token, value);
        self.table.shared.fetch_add::<Add<T>>(token, COUNT, added);
        self.table.shared.fetch_add::<Pass>(token, SERVING, 1);
        self.wake_next();
    }

    pub(crate) fn split(&self, token: &mut Token<T>) -> (Token<T>, u32)
        requires own { token.old.table_id ≡ self.now.table.shared.table_id }
        requires first { token.old.me.0.number ≡ 0 }
        requires idle { token.old.me.0.phase ≡ Idle }
        requires room { length token.old.me.0.gave < 2 ^ 31 }
        ensures own { token.new.table_id ≡ token.old.table_id }
        ensures gives { token.new.me ≡ (giver token.old.me.0, token.old.me.1) }
        ensures comes { (result.0.table_id ≡ token.old.table_id) × (result.0.me ≡ (newcomer token.old.me.0, [])) × (result.1 ≡ length token.old.me.0.gave + 1) }
        ensures in_order { token.new.me.0.gave ≡ up_to result.1 }
    {
        let number = self.table.shared.fetch_add::<Number>(token, NUMBERS, 1);
        let other = self.table.shared.split_seat::<Cut>(token);
        (other, number as u32)
    }

    pub(crate) fn join(&self, token: &mut Token<T>, other: Token<T>)
        requires own { (token.old.table_id ≡ self.now.table.shared.table_id) × (other.table_id ≡ self.now.table.shared.table_id) }
        requires first { token.old.me.0.number ≡ 0 }
        requires idle { (token.old.me.0.phase ≡ Idle) × (other.me.0.phase ≡ Idle) × (other.me.1 ≡ []) }
        ensures own { token.new.table_id ≡ token.old.table_id }
        ensures takes { token.new.me ≡ (taker token.old.me.0 other.me.0, token.old.me.1) }
    {
        self.table.shared.join_seat::<Glue>(token, other);
    }

    pub(crate) fn close(self, token: Token<T>) -> T
        requires own { token.table_id ≡ self.table.shared.table_id }
        requires first { token.me.0.number ≡ 0 }
        requires idle { token.me.0.phase ≡ Idle }
        requires joined { AllJoined token.me.0 }
        ensures history { ClosesHistory T.number token.me.0 (T.history result) }
        ensures fixed { Some (T.fixed result) ≡ token.me.0.fixed }
    {
        let TurnTable { table, beds: _ } = self;
        let mut closed = table.close_with(token);
        let value = closed.take(SLOT).unwrap();
        closed.free();
        value
    }
}
