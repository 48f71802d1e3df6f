//! What the application of a ring may do that was made disabled, once it is enabled. io_uring_register(2), IORING_REGISTER_RESTRICTIONS.

ghost use Rattle.std.specs.Prelude.{◌≡◌, ◌≢◌, ◌<◌, ◌&&◌, ◌==◌, nat_lt, ℕ, true, false, pos, List, [], ◌∷◌, reverse, Option, None, Some};
ghost use Rattle.std.specs.Int.{bit_at};
ghost use Rattle.uring_register.specs.declared.rings.restrictions.Restriction.{Restriction};
ghost use Rattle.uring_register.specs.Rings.Restricting as spec;

/// What one row of a list of restrictions allows, or requires: `struct io_uring_restriction`. What is reserved isn't looked at.
#[repr(C)]
#[derive(Clone, Copy, Drop)]
pub struct Restriction {
    /// IORING_RESTRICTION_REGISTER_OP is 0, SQE_OP 1, SQE_FLAGS_ALLOWED 2 and SQE_FLAGS_REQUIRED 3.
    pub kind: u16,

    /// The call of io_uring_register(2), the operation, or flags of entries.
    pub number: u8,

    pub resv: u8,
    pub second_resv: u32,
    pub third_resv: u32,
    pub fourth_resv: u32,
}

/// What a ring's restrictions are.
#[repr(C)]
#[derive(Clone, Copy, Drop)]
pub struct Restrictions {
    pub are_registered: bool,

    /// Flags that an entry may have.
    pub allowed: u8,

    /// And those that each has.
    pub required: u8,

    /// A bit for each operation that is allowed.
    pub codes: u64,

    /// And for each call of io_uring_register(2).
    pub calls: u64,
}

impl Restrictions {
    /// Those of a ring for which none are registered.
    pub fn none() -> Restrictions
        ensures { spec.KeepsRestrictions None result }
    {
        Restrictions {
            are_registered: false,
            allowed: 0,
            required: 0,
            codes: 0,
            calls: 0,
        }
    }

    /// Those of a list without rows: nothing is allowed.
    pub fn begin() -> Restrictions
        ensures { spec.KeepsRestrictions (Some []) result }
    {
        Restrictions {
            are_registered: true,
            allowed: 0,
            required: 0,
            codes: 0,
            calls: 0,
        }
    }

    /// Takes the next row of a list. Returns 0, or its fault: then nothing changes, and the list isn't to be registered.
    pub fn takes(&mut self, row: Restriction) -> i32
        ensures fault { result ≡ spec.row_fault row }
        ensures after { (rows : List Restriction) → spec.KeepsRestrictions (Some rows) self.old
            → result ≡ pos 0 → spec.KeepsRestrictions (Some (row ∷ rows)) self.new }
        ensures kept { (result ≡ pos 0 → ⊥) → self.new ≡ self.old }
    {
        if !is_row(row) {
            return -22;
        }
        match row.kind {
            0 => self.calls = with_bit(self.calls, row.number),
            1 => self.codes = with_bit(self.codes, row.number),
            2 => self.allowed = row.number,
            _ => self.required = row.number,
        }
        0
    }

    /// Registers a list of these rows, which are taken in turn. Returns 0, or the fault of the first that has one: then nothing changes.
    pub fn register(&mut self, rows: &[Restriction]) -> i32
        ensures fault { result ≡ spec.list_fault rows.now }
        ensures after { result ≡ pos 0 → spec.KeepsRestrictions (Some (reverse rows.now)) self.new }
        ensures kept { (result ≡ pos 0 → ⊥) → self.new ≡ self.old }
    {
        let mut made = Restrictions::begin();
        for row in rows {
            let fault = made.takes(*row);
            if fault < 0 {
                return fault;
            }
        }
        *self = made;
        0
    }

    /// Whether an entry of this operation may have these flags.
    pub fn allows_entry(&self, code: u8, flags: u8) -> bool
        ensures { (rows : Option (List Restriction)) → spec.KeepsRestrictions rows self.now
            → result ≡ spec.allows_entry rows code flags }
    {
        if !self.are_registered {
            return true;
        }
        has_bit(self.codes, code as u32)
            && are_among(self.required, flags)
            && are_among(flags, self.allowed | self.required)
    }

    /// Whether this call of io_uring_register(2) may be made, on a ring that is disabled or not.
    pub fn allows_call(&self, code: u32, is_disabled: bool) -> bool
        ensures { (rows : Option (List Restriction)) → spec.KeepsRestrictions rows self.now
            → result ≡ spec.allows_call rows code is_disabled }
    {
        !self.are_registered || is_disabled || has_bit(self.calls, code)
    }
}

/// Whether a row is of a kind that there is, and of a call or an operation that there is.
fn is_row(row: Restriction) -> bool
    ensures { result ≡ spec.is_row row }
{
    match row.kind {
        0 => row.number < 26,
        1 => row.number < 58,
        _ => row.kind < 4,
    }
}

/// Whether each of these flags is one of those.
fn are_among(flags: u8, all: u8) -> bool
    ensures { result ≡ spec.are_among flags all }
{
    flags | all == all
}

/// The numbers with one more.
fn with_bit(set: u64, number: u8) -> u64
    requires { number < 64 }
    ensures same { bit_at result number ≡ 1 }
    ensures others { (i : ℕ) → i ≢ number → bit_at result i ≡ bit_at set i }
{
    set | 1 << number
}

/// Whether a number is among them.
fn has_bit(set: u64, number: u32) -> bool
    ensures { result ≡ (nat_lt number 64 && bit_at set number == 1) }
{
    number < 64 && set >> number & 1 == 1
}

/// The fault of a list of so many restrictions, before any of it is looked at, or 0.
pub fn restricting_fault(is_disabled: bool, are_registered: bool, has_list: bool, count: u32) -> i32
    ensures { result ≡ spec.restricting_fault is_disabled are_registered has_list count }
{
    if !is_disabled {
        -77
    } else if are_registered {
        -16
    } else if !has_list || count > 103 {
        -22
    } else {
        0
    }
}

/// The fault of enabling a ring, which takes no argument, or 0.
pub fn enabling_fault(is_disabled: bool, has_argument: bool) -> i32
    ensures { result ≡ spec.enabling_fault is_disabled has_argument }
{
    if has_argument {
        -22
    } else if !is_disabled {
        -77
    } else {
        0
    }
}
