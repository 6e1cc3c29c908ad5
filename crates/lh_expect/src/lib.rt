//! What tests expect of values.
//!
//! `assert_eq!` and its kin write a branch into a test. A test is proved as any function is, and where it has many branches
//! most of that time goes into what is borrowed where they join again. Here each is a call and no branch, which takes half
//! the time. A test that fails tells the values, or the condition, and the file and the line.
//!
//! Each macro has two forms. `expect_eq!(rt, left, right)` takes all three by value: nothing is borrowed, and it takes
//! half as long. `rt` is a reference, as a function has it by `rt: &impl Abort`, and a test writes `&rt`;
//! of what is used again, give a reference. `expect_eq!(rt; left, right)` borrows all three, as `assert_eq!` does.
#![tactic(auto)]

ghost use Rattle.std.specs.Prelude.{◌≡◌, true, false, OnOk};

use arrayvec::ArrayString;
use std::fmt;
use std::fmt::{Debug, Write};

/// Two values that are not as a test expects: their text, of which as much is kept as there is room for.
#[derive(Drop)]
pub struct Unexpected {
    text: ArrayString<1000>,
}

impl Unexpected {
    fn of<T: Debug>(left: &T, right: &T) -> Unexpected {
        let mut text = ArrayString::new();
        // Where there is no room for all of it, its beginning tells enough.
        let _ = write!(text, "left: {left:?}, right: {right:?}");
        Unexpected { text }
    }
}

impl Debug for Unexpected {
    fn fmt<W: Write>(&self, f: &mut fmt::Formatter<W>) -> fmt::Result {
        f.write_str(self.text.as_str())
    }
}

/// What [`expect_eq!`](crate::expect_eq) asks: an error unless both values are equal.
pub fn equal<T: PartialEq + Debug>(left: &T, right: &T) -> Result<(), Unexpected>
    ensures { OnOk result (T.eq left.now right.now ≡ true) }
{
    if *left == *right {
        Ok(())
    } else {
        Err(Unexpected::of(left, right))
    }
}

/// What [`expect_ne!`](crate::expect_ne) asks: an error unless the values differ.
pub fn unequal<T: PartialEq + Debug>(left: &T, right: &T) -> Result<(), Unexpected>
    ensures { OnOk result (T.eq left.now right.now ≡ false) }
{
    if *left != *right {
        Ok(())
    } else {
        Err(Unexpected::of(left, right))
    }
}

/// As [`equal`], of values that it takes.
pub fn equal_values<T: PartialEq + Debug + Drop>(left: T, right: T) -> Result<(), Unexpected>
    ensures { OnOk result (T.eq left right ≡ true) }
{
    if left == right {
        Ok(())
    } else {
        Err(Unexpected::of(&left, &right))
    }
}

/// As [`unequal`], of values that it takes.
pub fn unequal_values<T: PartialEq + Debug + Drop>(left: T, right: T) -> Result<(), Unexpected>
    ensures { OnOk result (T.eq left right ≡ false) }
{
    if left != right {
        Ok(())
    } else {
        Err(Unexpected::of(&left, &right))
    }
}

/// How a message of [`expect_eq!`](crate::expect_eq) begins. A text from a call is proved faster.
pub fn values_differ() -> &'static str {
    "the values differ"
}

/// How a message of [`expect_ne!`](crate::expect_ne) begins.
pub fn values_are_equal() -> &'static str {
    "the values are equal"
}

/// As `assert_eq!`, of two values of one type.
#[macro_export]
macro_rules! expect_eq {
    ($rt:expr, $left:expr, $right:expr) => {
        std::panic::Expect::expect($crate::equal_values($left, $right), $rt, $crate::values_differ())
    };
    ($rt:expr; $left:expr, $right:expr) => {
        std::panic::Expect::expect(
            $crate::equal(&$left, &$right),
            &$rt,
            "the values differ",
        )
    };
}

/// As `assert_ne!`, of two values of one type.
#[macro_export]
macro_rules! expect_ne {
    ($rt:expr, $left:expr, $right:expr) => {
        std::panic::Expect::expect(
            $crate::unequal_values($left, $right),
            $rt,
            $crate::values_are_equal(),
        )
    };
    ($rt:expr; $left:expr, $right:expr) => {
        std::panic::Expect::expect(
            $crate::unequal(&$left, &$right),
            &$rt,
            "the values are equal",
        )
    };
}

/// As `assert!`. Where a later line is proved by the condition, a test says `assert!`.
#[macro_export]
macro_rules! expect {
    ($rt:expr, $condition:expr) => {
        std::panic::Expect::expect(
            ($condition).then_some(()),
            $rt,
            concat!("not so: ", stringify!($condition)),
        )
    };
    ($rt:expr; $condition:expr) => {
        std::panic::Expect::expect(
            ($condition).then_some(()),
            &$rt,
            concat!("not so: ", stringify!($condition)),
        )
    };
}
