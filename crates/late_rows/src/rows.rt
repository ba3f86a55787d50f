ghost use Rattle.std.specs.Prelude.{◌≡◌, ◌+◌, ◌<◌, ◌^◌, IfOk, length, replicate, slice_index, slice_index_or};
ghost use Rattle.std.specs.Prelude.{slice_set, vec_capacity};
ghost use Rattle.std.specs.Borrow.{sem};
ghost use Rattle.late_rows.specs.Rows.{IsKept, rows_of};

use std::alloc::{AllocError, Global};
use std::marker::Model;
use std::ops::{Index, IndexMut};

/// What a row has before it is changed.
pub trait Fresh {
    ghost fresh: { Self };

    /// A row that was not changed.
    fn fresh() -> Self
        ensures { result ≡ fresh };
}

/// What is made the same as another one in its place.
pub trait CopyFrom {
    /// Makes it what another one is.
    fn copy_from(&mut self, other: &Self)
        ensures { self.new ≡ other.now };
}

/// A fixed number of rows, seen as the list of them. Memory is taken for all, and a row's is first written when
/// the row is first changed, so that opening costs little however many rows there are.
#[derive(Drop)]
pub struct LateRows<T: Fresh> {
    // For each row where it is in `made`; 0 for rows that were not changed.
    numbers: Vec<u32>,
    // A row that was not changed, and then those that were.
    made: Vec<T>,
}

impl<T: Fresh> Model for LateRows<T> {
    ghost use Rattle.std.specs.Prelude.{List, vec_capacity};
    ghost use Rattle.late_rows.specs.Rows.{IsKept, rows_of};

    ghost Value = { List T };

    ghost view = { λ rows. rows_of T.fresh rows.numbers.items rows.made.items };

    ghost invariant = { λ rows.
        IsKept T.fresh (vec_capacity rows.made) rows.numbers.items rows.made.items };
}

impl<T: Fresh + Drop> LateRows<T> {
    /// This number of rows, none of them changed. The error says that memory ran out, which no later call
    /// takes.
    pub fn open(alloc: Global, rows: u32) -> Result<LateRows<T>, AllocError>
        requires { rows + 1 < 2 ^ 32 }
        ensures { IfOk result (λ opened. opened ≡ replicate rows T.fresh) }
    {
        let numbers = vec![in alloc; 0u32; rows as usize]?;
        let mut made = Vec::with_capacity(alloc, rows as usize + 1)?;
        made.push_reserved(T::fresh());
        Ok(LateRows { numbers, made })
    }

    /// How many rows there are.
    pub fn len(&self) -> usize
        ensures { result ≡ length self.now }
    {
        self.numbers.len()
    }
}

impl<T: Fresh + CopyFrom + Drop> LateRows<T> {
    /// Makes a row what another one is. Nothing else is written.
    pub fn copy(&mut self, to: usize, from: usize)
        requires to { to < length self.old }
        requires from { from < length self.old }
        ensures { self.new ≡ slice_set self.old to (slice_index_or self.old from T.fresh) }
    {
        let number = number_of(&mut self.numbers, &mut self.made, to);
        copy_within(&mut self.made, number, self.numbers[from] as usize);
    }
}

/// Makes an element what another one is.
fn copy_within<T: CopyFrom>(made: &mut [T], to: usize, from: usize)
    requires to { to < length made.old }
    requires from { from < length made.old }
    ensures { (fresh : T) → made.new ≡ slice_set made.old to (slice_index_or made.old from fresh) }
{
    if from < to {
        let (front, back) = made.split_at_mut(to);
        back[0].copy_from(&front[from]);
    } else if to < from {
        let (front, back) = made.split_at_mut(from);
        front[to].copy_from(&back[0]);
    }
}

/// The number of a row among those that were made. If it was not made, it is made.
#[inline(always)]
fn number_of<T: Fresh + Drop>(numbers: &mut Vec<u32>, made: &mut Vec<T>, row: usize) -> usize
    requires row { row < length numbers.old.items }
    requires kept { IsKept T.fresh (vec_capacity made.old) numbers.old.items made.old.items }
    ensures number { result ≡ slice_index numbers.new.items row }
    ensures changed { 0 < result }
    ensures kept { IsKept T.fresh (vec_capacity made.new) numbers.new.items made.new.items }
    ensures same { rows_of T.fresh numbers.new.items made.new.items
        ≡ rows_of T.fresh numbers.old.items made.old.items }
{
    let number = numbers[row];
    if number > 0 {
        return number as usize;
    }
    make(numbers, made, row)
}

/// Makes a row that was not made, and answers its number. Not inlined, since a row is made once.
#[inline(never)]
fn make<T: Fresh + Drop>(numbers: &mut Vec<u32>, made: &mut Vec<T>, row: usize) -> usize
    requires row { row < length numbers.old.items }
    requires kept { IsKept T.fresh (vec_capacity made.old) numbers.old.items made.old.items }
    requires unmade { slice_index numbers.old.items row ≡ 0 }
    ensures number { result ≡ slice_index numbers.new.items row }
    ensures changed { 0 < result }
    ensures kept { IsKept T.fresh (vec_capacity made.new) numbers.new.items made.new.items }
    ensures same { rows_of T.fresh numbers.new.items made.new.items
        ≡ rows_of T.fresh numbers.old.items made.old.items }
{
    let next = made.len();
    made.push_reserved(T::fresh());
    numbers[row] = next as u32;
    next
}

impl<T: Fresh + Drop> Index<usize> for LateRows<T> {
    type Output = T;

    ghost can_index = { λ rows row. row < length rows };

    ghost index_gives = { λ rows row it. it ≡ slice_index_or rows row it };

    #[inline(always)]
    fn index(&self, row: usize) -> &T {
        &self.made[self.numbers[row] as usize]
    }
}

impl<T: Fresh + Drop> IndexMut<usize> for LateRows<T> {
    ghost use Rattle.late_rows.specs.Lends.{lends_row};

    #[inline(always)]
    fn index_mut(&mut self, row: usize) -> &mut T
        requires { row < length self.old }
        ensures* writes_back { sem 𝓛 (lends_row T.row T.Fresh self.entry row result) }
        ensures value { result.now ≡ slice_index_or self.old row result.now }
    {
        let number = number_of(&mut self.numbers, &mut self.made, row);
        &mut self.made[number]
    }
}
