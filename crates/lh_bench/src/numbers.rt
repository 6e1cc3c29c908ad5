//! Random numbers.

use crate::order::Order;

pub const GAMMA: u64 = 0x9e37_79b9_7f4a_7c15;

pub fn mix(number: u64) -> u64 {
    let mut x = number;
    x ^= x >> 30;
    x = x.wrapping_mul(0xbf58_476d_1ce4_e5b9);
    x ^= x >> 27;
    x = x.wrapping_mul(0x94d0_49bb_1331_11eb);
    x ^ (x >> 31)
}

/// Random numbers: splitmix64.
#[derive(Clone, Copy)]
pub struct Numbers {
    state: u64,
}

impl Numbers {
    /// The numbers of one thread of a workload.
    pub fn of_thread(order: &Order, thread: u64) -> Numbers {
        let tag = (order.workload.number() << 32) | thread;
        Numbers {
            state: mix(order.seed ^ tag.wrapping_mul(0xd134_2543_de82_ef95)),
        }
    }

    pub fn next(&mut self) -> u64 {
        self.state = self.state.wrapping_add(GAMMA);
        mix(self.state)
    }

    /// A number below `end`, or 0.
    pub fn below(&mut self, end: u64) -> u64 {
        ((self.next() as u128 * end as u128) >> 64) as u64
    }
}

/// The bits behind the point of the numbers below.
const PLACES: u32 = 40;

const ONE: u64 = 1 << PLACES;

/// The product of two numbers with places behind the point, or the greatest number.
fn times(a: u64, b: u64) -> u64 {
    let product = (a as u128 * b as u128) >> PLACES;
    u64::try_from(product).unwrap_or(u64::MAX)
}

/// A number's hundredth power.
fn power(x: u64) -> u64 {
    let x2 = times(x, x);
    let x4 = times(x2, x2);
    let x8 = times(x4, x4);
    let x16 = times(x8, x8);
    let x32 = times(x16, x16);
    let x64 = times(x32, x32);
    times(times(x64, x32), x4)
}

/// Numbers below an end by Zipf's law with the exponent 0.99, as a power law that is rounded down.
#[derive(Clone, Copy)]
pub struct Skew {
    end: u64,
    /// The hundredth root of one more than the end, less one.
    top: u64,
}

impl Skew {
    pub fn new(end: u64) -> Skew {
        let most = end.saturating_add(1).saturating_mul(ONE);
        let mut top: u64 = 0;
        for place in (0..PLACES).rev() {
            let more = top | (1 << place);
            if power(ONE.saturating_add(more)) < most {
                top = more;
            }
        }
        Skew { end, top }
    }

    pub fn pick(&self, numbers: &mut Numbers) -> u64 {
        let part = times(numbers.next() >> (64 - PLACES), self.top);
        let rank = power(ONE.saturating_add(part)) >> PLACES;
        rank.saturating_sub(1).min(self.end.saturating_sub(1))
    }
}
