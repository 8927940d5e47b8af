// Runs the documents' worked steps and prints what each answers, a line each.
#![tactic(auto)]

ghost use Rattle.std.specs.Prelude.{Some, ◌++◌, codes};
ghost use Rattle.std.specs.Fmt.{decimal, signed_decimal};

use refusals::{Refusal, number_of};
use rules::{Ball, Matryoshka};
use std::{fmt, io};

// A ball as it is printed: centre and margin.
#[derive(Drop)]
struct BallText(Ball);

// A matryoshka as it is printed: middle, stray and margin.
#[derive(Drop)]
struct MatryoshkaText(Matryoshka);

impl fmt::Display for BallText {
    ghost output = { λ t. Some (signed_decimal t.0.centre ++ codes " " ++ decimal t.0.margin) };

    fn fmt<W: fmt::Write>(&self, f: &mut fmt::Formatter<W>) -> fmt::Result {
        write!(f, "{} {}", self.0.centre, self.0.margin)
    }
}

impl fmt::Display for MatryoshkaText {
    ghost output = { λ t. Some (signed_decimal t.0.middle ++ codes " " ++ decimal t.0.stray ++ codes " " ++ decimal t.0.margin) };

    fn fmt<W: fmt::Write>(&self, f: &mut fmt::Formatter<W>) -> fmt::Result {
        write!(f, "{} {} {}", self.0.middle, self.0.stray, self.0.margin)
    }
}

fn say<T: fmt::Display + Drop>(
    rt: &impl Print,
    question: &str,
    answer: Result<T, Refusal>,
) -> io::Result<()> {
    match answer {
        Ok(value) => println!(rt; "{question}{value}"),
        Err(why) => {
            let number = number_of(why);
            println!(rt; "{question}refused {number}")
        }
    }
}

// Two balls times one another at scale 4, where a unit is a sixteenth.
fn small_products(rt: &impl Print) -> io::Result<()> {
    let one = Ball {
        centre: 1,
        margin: 0,
    };
    let x = Ball {
        centre: 24,
        margin: 3,
    };
    let y = Ball {
        centre: -10,
        margin: 2,
    };
    say(
        rt,
        "F 4: (24,3) times (-10,2) is ",
        balls::steps::multiply(4, x, y).map(BallText),
    )?;
    say(
        rt,
        "F 4: (1,0) times (1,0) is ",
        balls::steps::multiply(4, one, one).map(BallText),
    )?;
    let up = Ball {
        centre: 8,
        margin: 0,
    };
    say(
        rt,
        "F 4: (8,0) times (1,0) is ",
        balls::steps::multiply(4, up, one).map(BallText),
    )?;
    let tie = Ball {
        centre: -8,
        margin: 0,
    };
    say(
        rt,
        "F 4: (-8,0) times (1,0) is ",
        balls::steps::multiply(4, tie, one).map(BallText),
    )?;
    let down = Ball {
        centre: -9,
        margin: 0,
    };
    say(
        rt,
        "F 4: (-9,0) times (1,0) is ",
        balls::steps::multiply(4, down, one).map(BallText),
    )?;
    Ok(())
}

// At scale 0 nothing is rounded; the last sum is one unit past the limit.
fn whole_units(rt: &impl Print) -> io::Result<()> {
    let x = Ball {
        centre: 3,
        margin: 1,
    };
    let y = Ball {
        centre: -5,
        margin: 2,
    };
    say(
        rt,
        "F 0: (3,1) times (-5,2) is ",
        balls::steps::multiply(0, x, y).map(BallText),
    )?;
    let last = Ball {
        centre: 2147483646,
        margin: 1,
    };
    let none = Ball {
        centre: 0,
        margin: 0,
    };
    let doubt = Ball {
        centre: 0,
        margin: 1,
    };
    say(
        rt,
        "F 0: (2147483646,1) plus (0,0) is ",
        balls::steps::add(last, none).map(BallText),
    )?;
    say(
        rt,
        "F 0: (2147483646,1) plus (0,1) is ",
        balls::steps::add(last, doubt).map(BallText),
    )?;
    Ok(())
}

fn static_products(rt: &impl Print) -> io::Result<()> {
    let x = Matryoshka {
        middle: 24,
        stray: 3,
        margin: 1,
    };
    let y = Matryoshka {
        middle: -10,
        stray: 2,
        margin: 1,
    };
    say(
        rt,
        "F 4: (24,3,1) times (-10,2,1) is ",
        matryoshki::steps::multiply(4, x, y).map(MatryoshkaText),
    )?;
    let one = Matryoshka {
        middle: 1,
        stray: 0,
        margin: 0,
    };
    say(
        rt,
        "F 4: (1,0,0) times (1,0,0) is ",
        matryoshki::steps::multiply(4, one, one).map(MatryoshkaText),
    )?;
    let unit = Matryoshka {
        middle: 16,
        stray: 0,
        margin: 0,
    };
    let z = Matryoshka {
        middle: 5,
        stray: 2,
        margin: 0,
    };
    say(
        rt,
        "F 4: (16,0,0) times (5,2,0) is ",
        matryoshki::steps::multiply(4, unit, z).map(MatryoshkaText),
    )?;
    Ok(())
}

// At scale 4 a tenth is 1.6 units: 2 with a margin of 1. An exact 2 beside it forgets what that rounding lost.
fn tenths(rt: &impl Print) -> io::Result<()> {
    say(
        rt,
        "F 4: the coefficient (2,1) is ",
        balls::steps::coefficient(2, 1).map(BallText),
    )?;
    let tenth = Ball {
        centre: 2,
        margin: 1,
    };
    let exact = Ball {
        centre: 2,
        margin: 0,
    };
    let reading = Ball {
        centre: 80,
        margin: 0,
    };
    say(
        rt,
        "F 4: (2,1) times (80,0) is ",
        balls::steps::multiply(4, tenth, reading).map(BallText),
    )?;
    say(
        rt,
        "F 4: (2,0) times (80,0) is ",
        balls::steps::multiply(4, exact, reading).map(BallText),
    )?;
    Ok(())
}

fn static_tenths(rt: &impl Print) -> io::Result<()> {
    say(
        rt,
        "F 4: the static coefficient (2,1) is ",
        matryoshki::steps::coefficient(2, 1).map(MatryoshkaText),
    )?;
    let tenth = Matryoshka {
        middle: 2,
        stray: 0,
        margin: 1,
    };
    let exact = Matryoshka {
        middle: 2,
        stray: 0,
        margin: 0,
    };
    let reading = Matryoshka {
        middle: 80,
        stray: 16,
        margin: 0,
    };
    say(
        rt,
        "F 4: (2,0,1) times (80,16,0) is ",
        matryoshki::steps::multiply(4, tenth, reading).map(MatryoshkaText),
    )?;
    say(
        rt,
        "F 4: (2,0,0) times (80,16,0) is ",
        matryoshki::steps::multiply(4, exact, reading).map(MatryoshkaText),
    )?;
    Ok(())
}

fn bare_limits(rt: &impl Print) -> io::Result<()> {
    say(rt, "M plus -1 is ", plain::steps::add(2147483647, -1))?;
    say(rt, "M plus 1 is ", plain::steps::add(2147483647, 1))?;
    say(rt, "negating M is ", plain::steps::negate(2147483647))?;
    Ok(())
}

fn main(rt: HostRuntime) -> io::Result<()> {
    small_products(&rt)?;
    whole_units(&rt)?;
    static_products(&rt)?;
    tenths(&rt)?;
    static_tenths(&rt)?;
    bare_limits(&rt)
}
