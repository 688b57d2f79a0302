//! Markets of three members with amounts up to 2, and their least gross, found by looking at every other network.

/// What each of the members A, B and C sold to each other one.
#[derive(Clone, Copy)]
pub struct Amounts {
    pub ab: u8,
    pub ac: u8,
    pub ba: u8,
    pub bc: u8,
    pub ca: u8,
    pub cb: u8,
}

/// The network of a number below 729, with amounts below 3.
pub fn original(number: u32) -> Amounts {
    Amounts {
        ab: (number % 3) as u8,
        ac: (number / 3 % 3) as u8,
        ba: (number / 9 % 3) as u8,
        bc: (number / 27 % 3) as u8,
        ca: (number / 81 % 3) as u8,
        cb: (number / 243 % 3) as u8,
    }
}

/// The network of a number below 15,625, with amounts below 5: no pair can use more.
fn candidate(number: u32) -> Amounts {
    Amounts {
        ab: (number % 5) as u8,
        ac: (number / 5 % 5) as u8,
        ba: (number / 25 % 5) as u8,
        bc: (number / 125 % 5) as u8,
        ca: (number / 625 % 5) as u8,
        cb: (number / 3125 % 5) as u8,
    }
}

fn gross(of: &Amounts) -> u32 {
    u32::from(of.ab)
        + u32::from(of.ac)
        + u32::from(of.ba)
        + u32::from(of.bc)
        + u32::from(of.ca)
        + u32::from(of.cb)
}

/// Whether what was sold less what was bought is the same in both.
fn same(sold: [u8; 2], bought: [u8; 2], old_sold: [u8; 2], old_bought: [u8; 2]) -> bool {
    u32::from(sold[0]) + u32::from(sold[1]) + u32::from(old_bought[0]) + u32::from(old_bought[1])
        == u32::from(old_sold[0])
            + u32::from(old_sold[1])
            + u32::from(bought[0])
            + u32::from(bought[1])
}

fn has_nets(new: &Amounts, old: &Amounts) -> bool {
    same(
        [new.ab, new.ac],
        [new.ba, new.ca],
        [old.ab, old.ac],
        [old.ba, old.ca],
    ) && same(
        [new.ba, new.bc],
        [new.ab, new.cb],
        [old.ba, old.bc],
        [old.ab, old.cb],
    ) && same(
        [new.ca, new.cb],
        [new.ac, new.bc],
        [old.ca, old.cb],
        [old.ac, old.bc],
    )
}

/// Which pairs may grow: none, those of A and B, or all.
#[derive(Clone, Copy)]
pub enum Growing {
    Nobody,
    AAndB,
    All,
}

fn is_within(new: &Amounts, old: &Amounts, growing: Growing) -> bool {
    let first = new.ab <= old.ab && new.ba <= old.ba;
    let others = new.ac <= old.ac && new.bc <= old.bc && new.ca <= old.ca && new.cb <= old.cb;
    match growing {
        Growing::Nobody => first && others,
        Growing::AAndB => others,
        Growing::All => true,
    }
}

pub fn least_gross(old: &Amounts, growing: Growing) -> u32 {
    let mut least = gross(old);
    for number in 0..15_625 {
        let new = candidate(number);
        if gross(&new) < least && is_within(&new, old, growing) && has_nets(&new, old) {
            least = gross(&new);
        }
    }
    least
}
