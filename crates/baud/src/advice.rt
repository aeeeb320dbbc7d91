// Which speed to take, and why.
ghost use Rattle.std.specs.Prelude.{◌≡◌};
ghost use Rattle.baud.specs.Setting.{total_of};
ghost use Rattle.baud.specs.Advice.{is_no_worse, decided as Advice·decided, advice_of};

use crate::length::lengths_within;
use crate::setting::Setting;
use crate::target::Target;
use std::cmp::Ordering;

// The speed is told by U2X.
#[derive(Clone, Copy)]
pub(crate) enum Advice {
    // This speed is within the limit at more frame lengths.
    MoreLengths(bool),
    // .. at as many, with the smaller error.
    SmallerError(bool),
    // No difference: normal speed, which has more samples a bit.
    Even,
    // Neither is within the limit at any frame length.
    Neither,
}

// Whether a setting's absolute error is no larger than another's. The rate, a factor of both products, is left out.
#[tactic(auto, using(crate::proofs::AdviceLaws::cancel))]
fn is_no_worse(target: Target, s: Setting, other: Setting) -> bool
    ensures { result ≡ is_no_worse target.clock (total_of s target.rate) (total_of other target.rate) }
{
    let clock = target.clock as u64;
    let here = clock.abs_diff(s.total(target.rate)) * other.divisor();
    let there = clock.abs_diff(other.total(target.rate)) * s.divisor();
    here <= there
}

// By how many frame lengths are within the limit, and whether the error of either speed is no larger than the other's.
#[tactic(auto, using(choice::proofs::Picks::picks), unfolding(crate::specs::Advice::decided))]
fn decided(normal: u8, double: u8, normal_no_worse: bool, double_no_worse: bool) -> Advice
    ensures { result ≡ Advice·decided normal double normal_no_worse double_no_worse }
{
    match normal.cmp(&double) {
        Ordering::Greater => Advice::MoreLengths(false),
        Ordering::Less => Advice::MoreLengths(true),
        Ordering::Equal if normal == 0 => Advice::Neither,
        Ordering::Equal if !normal_no_worse => Advice::SmallerError(true),
        Ordering::Equal if !double_no_worse => Advice::SmallerError(false),
        Ordering::Equal => Advice::Even,
    }
}

#[tactic(auto, unfolding(crate::specs::Advice::advice_of))]
pub(crate) fn advised(target: Target, normal: Setting, double: Setting) -> Advice
    ensures { result ≡ advice_of target.clock target.rate normal double }
{
    decided(
        lengths_within(target, normal),
        lengths_within(target, double),
        is_no_worse(target, normal, double),
        is_no_worse(target, double, normal),
    )
}
