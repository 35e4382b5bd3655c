ghost use Rattle.std.specs.Prelude.{◌≡◌, ◌*◌, ◌^◌, ◌<◌, ◌≤◌, ℕ, true, false, length, map, slice_index_or, IfOk};
ghost use Rattle.std.specs.List.{range_with_len};
ghost use Rattle.definitions.specs.believed.Demand.{is_among};
ghost use Rattle.shared_marks.specs.Adding.{Adds, nothing};
ghost use Rattle.shared_marks.specs.Seats.{IsWhole, first_holding, halved, with_holding, is_held, joined, marking, noting, other_half, testing};
ghost use Rattle.shared_marks.specs.Steps.{IsMarkStep, IsTestStep, has_bit, marking_all, places_of};

use crate::bits::{Bits, WORD_BITS, words_of};
use crate::holding::Holding;
use crate::rule::{Halves, MarkRule, Marking, MarkingBits, Noting, Place, Testing};
use crate::seat::MarkSeat;
use atomic_table::Table;
use std::alloc::Global;
use std::marker::{Brand, Model};
use value_text::NoMemory;

/// A table of marks that several workers put, each with a seat of its own. Contracts see which table it is
/// and the number of its places.
#[derive(Drop)]
pub struct SharedMarks {
    table: Table<(), Holding, usize, MarkRule, Global>,
    // as long as the table, so that its closing takes no memory
    room: Vec<u64>,
    size: u32,
}

impl Model for SharedMarks {
    ghost use Rattle.std.specs.Prelude.{◌≡◌, ◌*◌, ◌<◌, length};
    ghost use Rattle.shared_marks.specs.Seats.{TableView};

    ghost Value = { TableView };

    ghost view = { λ a. record { table = a.table.shared.table_id; bits = a.size } };

    ghost invariant = { λ a. (a.table.shared.table_id.words ≡ a.table.shared.key) × (a.table.shared.table_id.slots ≡ 0)
        × (a.size < 64 * a.table.shared.key) × (length a.room.items ≡ a.table.shared.key) };
}

impl SharedMarks {
    /// A table of `bits` places without a mark, and its first seat, which has the whole share.
    ///
    /// # Errors
    ///
    /// `NoMemory` where memory is refused.
    pub fn new(alloc: Global, bits: u32) -> Result<(SharedMarks, MarkSeat), NoMemory>
        ensures { IfOk result (λ made. (made.0.bits ≡ bits) × (made.1 ≡ record { table = made.0.table; holds = first_holding })) }
    {
        let count = bits as usize / WORD_BITS + 1;
        let room = vec![in alloc; 0; count]?;
        let (table, seat) = Table::of_words(alloc, room.as_slice(), &count)?;
        Ok((
            SharedMarks {
                table,
                room,
                size: bits,
            },
            MarkSeat { seat },
        ))
    }

    /// Marks a place: one `fetch_or` of its word. The seat has to be of this table. Takes no memory.
    pub fn mark(&self, seat: &mut MarkSeat, place: u32)
        requires table { seat.old.table ≡ self.now.table }
        requires place { place < self.now.bits }
        ensures seat { seat.new ≡ with_holding seat.old (marking place seat.old.holds) }
        ensures step { IsMarkStep self.now.table.words place seat.old.holds seat.new.holds }
    {
        self.put::<Brand>(seat, place);
    }

    /// Whether a place is marked: one load of its word. The seat has to be of this table; a place that is
    /// marked joins those that it has seen. After false the bit wasn't set in the word that was loaded. Takes no
    /// memory.
    pub fn is_marked(&self, seat: &mut MarkSeat, place: u32) -> bool
        requires table { seat.old.table ≡ self.now.table }
        requires place { place < self.now.bits }
        ensures seat { seat.new ≡ with_holding seat.old (testing place result seat.old.holds) }
        ensures held { is_held seat.old.holds place ≡ true → result ≡ true }
        ensures whole { IsWhole seat.old.holds → result ≡ is_among seat.old.holds.marked place }
        ensures step { IsTestStep self.now.table.words place result seat.old.holds seat.new.holds }
    {
        self.look::<Brand>(seat, place)
    }

    /// Cuts the share of a seat in two, and gives a new seat the second half. The new seat marked nothing,
    /// and has seen what the seat marked or saw. The seat has to be of this table. Takes no memory.
    pub fn split(&self, seat: &mut MarkSeat) -> MarkSeat
        requires { seat.old.table ≡ self.now.table }
        ensures seat { seat.new ≡ with_holding seat.old (halved seat.old.holds) }
        ensures other { result ≡ with_holding seat.old (other_half seat.old.holds) }
    {
        MarkSeat {
            seat: self.table.shared.split_seat::<Halves>(&mut seat.seat),
        }
    }

    /// Adds what another seat holds to a seat, its share too. Both have to be of this table. Takes no memory.
    pub fn join(&self, seat: &mut MarkSeat, other: MarkSeat)
        requires seat { seat.old.table ≡ self.now.table }
        requires other { other.table ≡ self.now.table }
        ensures { seat.new ≡ with_holding seat.old (joined seat.old.holds other.holds) }
    {
        let MarkSeat { seat: from } = other;
        self.table.shared.join_seat::<Halves>(&mut seat.seat, from);
    }

    /// The marks of the table, which is taken apart: a mark at each place that the seat marked or saw marked,
    /// and no other one if it has the whole share. The seat has to be of this table. Takes no memory.
    pub fn close(self, seat: MarkSeat) -> Bits
        requires { seat.table ≡ self.table }
        ensures size { length result ≡ self.bits }
        ensures held { (place : ℕ) → place < self.bits → is_held seat.holds place ≡ true → slice_index_or result place false ≡ true }
        ensures whole { IsWhole seat.holds → result ≡ map (is_among seat.holds.marked) (range_with_len 0 self.bits) }
    {
        let SharedMarks { table, room, size } = self;
        let MarkSeat { seat } = seat;
        let closed = table.close_with(seat);
        let words = words_of(&closed, room);
        closed.free();
        Bits { words, size }
    }

    // A table has fewer than 2^32 places.
    pub(crate) fn assert_invariant(&self)
        ensures { self.now.bits < 2 ^ 32 }
    {
        let _size = self.size;
    }

    // Marks a place as `mark` does. Where its bit is set already one load is enough, and this is the usual
    // case where many rows serve a tuple.
    pub(crate) fn mark_lightly(&self, seat: &mut MarkSeat, place: u32)
        requires table { seat.old.table ≡ self.now.table }
        requires place { place < self.now.bits }
        ensures { seat.new ≡ with_holding seat.old (marking place seat.old.holds) }
    {
        if !self.note::<Brand>(seat, place) {
            self.mark(seat, place);
        }
    }

    // Marks the places of a word whose bits a number has: one `fetch_or` of the word.
    pub(crate) fn mark_word(&self, seat: &mut MarkSeat, word: u32, bits: u64)
        requires table { seat.old.table ≡ self.now.table }
        requires word { 64 * word ≤ self.now.bits }
        ensures { seat.new ≡ with_holding seat.old (marking_all (places_of word bits) seat.old.holds) }
    {
        self.table
            .shared
            .fetch_or::<MarkingBits>(&mut seat.seat, word as usize, bits);
    }

    // Whether all places of a range are marked; then the seat has seen them.
    pub(crate) fn are_marked(&self, seat: &mut MarkSeat, from: u32, to: u32) -> bool
        requires table { seat.old.table ≡ self.now.table }
        requires within { to ≤ self.now.bits }
        ensures seat { Adds nothing seat.old seat.new }
        ensures held { result ≡ true → (place : ℕ) → from ≤ place → place < to → is_held seat.new.holds place ≡ true }
    {
        for place in from..to {
            if !self.is_marked(seat, place) {
                return false;
            }
        }
        true
    }

    // Marks the place that this step is about if its bit is set already, and tells whether it is.
    fn note<P: Place>(&self, seat: &mut MarkSeat, place: u32) -> bool
        requires step { P.place ≡ place }
        requires table { seat.old.table ≡ self.now.table }
        requires place { place < self.now.bits }
        ensures { seat.new ≡ with_holding seat.old (noting place result seat.old.holds) }
    {
        let word = self
            .table
            .shared
            .load::<Noting<P>>(&mut seat.seat, place as usize / WORD_BITS);
        is_set(word, place)
    }

    // Marks the place that this step is about.
    fn put<P: Place>(&self, seat: &mut MarkSeat, place: u32)
        requires step { P.place ≡ place }
        requires count { P.count ≡ self.now.table.words }
        requires table { seat.old.table ≡ self.now.table }
        requires place { place < self.now.bits }
        ensures seat { seat.new ≡ with_holding seat.old (marking place seat.old.holds) }
        ensures step { IsMarkStep P.count P.place seat.old.holds seat.new.holds }
    {
        let word = place as usize / WORD_BITS;
        let bit = 1 << (place as usize % WORD_BITS);
        self.table
            .shared
            .fetch_or::<Marking<P>>(&mut seat.seat, word, bit);
    }

    // Tests the place that this step is about.
    fn look<P: Place>(&self, seat: &mut MarkSeat, place: u32) -> bool
        requires step { P.place ≡ place }
        requires count { P.count ≡ self.now.table.words }
        requires table { seat.old.table ≡ self.now.table }
        requires place { place < self.now.bits }
        ensures seat { seat.new ≡ with_holding seat.old (testing place result seat.old.holds) }
        ensures held { is_held seat.old.holds place ≡ true → result ≡ true }
        ensures whole { IsWhole seat.old.holds → result ≡ is_among seat.old.holds.marked place }
        ensures step { IsTestStep P.count P.place result seat.old.holds seat.new.holds }
    {
        let word = self
            .table
            .shared
            .load::<Testing<P>>(&mut seat.seat, place as usize / WORD_BITS);
        is_set(word, place)
    }
}

// Whether the bit of a place is set in its word.
fn is_set(word: u64, place: u32) -> bool
    ensures { result ≡ has_bit word place }
{
    (word >> (place as usize % WORD_BITS)) & 1 == 1
}
