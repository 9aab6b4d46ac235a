// "An answer has: number; place ..; names done; displaced or not; bytes written; stores made." "The place becomes argument and link".
#![tactic(auto)]

pub mod number;

ghost use Rattle.std.specs.Prelude.{◌≡◌, ◌<◌, Err};
ghost use Rattle.paper.specs.Answer.{plain, granting};
ghost use Rattle.paper.specs.Check.{whole};
ghost use Rattle.answers.specs.Shown.{place_meant, place_shown, shown, stored, answer_of};

use crate::number::Number;

// An argument from 1, and a link of its chain from 1; 0 for none.
#[derive(Clone, Copy, PartialEq, Eq)]
pub struct Place {
    pub argument: u32,
    pub link: u32,
}

impl Place {
    // A whole argument, or none.
    pub fn whole(argument: u32) -> Self
        ensures { result ≡ place_shown (whole argument) }
    {
        Place { argument, link: 0 }
    }
}

// A number that refuses, and its place.
#[derive(Clone, Copy, PartialEq, Eq)]
pub struct Refusal {
    pub number: Number,
    pub place: Place,
}

impl Refusal {
    // A number of a whole argument, or of none.
    pub fn whole(number: Number, argument: u32) -> Self
        ensures { result ≡ record { number = number; place = place_shown (whole argument) } }
    {
        let place = Place::whole(argument);
        Refusal { number, place }
    }
}

// The seven numbers, the place as two of them.
#[repr(C)]
#[derive(Clone, Copy)]
pub struct Answer {
    pub number: u32,
    pub place: u32,
    pub link: u32,
    pub names: u32,
    pub displaced: u32,
    pub bytes: usize,
    pub stores: u32,
}

impl Answer {
    // "On any number but 0, displaced is no and bytes are 0."
    pub fn plain(number: u32, place: Place, names: u32, stores: u32) -> Self
        ensures { result ≡ shown (plain number (place_meant place) names stores) }
    {
        Answer {
            number,
            place: place.argument,
            link: place.link,
            names,
            displaced: 0,
            bytes: 0,
            stores,
        }
    }

    // The same of no argument.
    pub fn placeless(number: u32, names: u32, stores: u32) -> Self
        ensures { result ≡ shown (plain number (whole 0) names stores) }
    {
        Answer::plain(number, Place::whole(0), names, stores)
    }

    // A refusal: a number and its place.
    pub fn refused(number: u8, place: Place) -> Self
        ensures { result ≡ shown (plain number (place_meant place) 0 0) }
    {
        Answer::plain(u32::from(number), place, 0, 0)
    }

    // .. of a whole argument, or of none.
    pub fn refused_whole(number: u8, argument: u32) -> Self
        ensures { result ≡ shown (plain number (whole argument) 0 0) }
    {
        Answer::refused(number, Place::whole(argument))
    }

    // All that one name asks for was done: an entry displaced or not, so many bytes written, so many stores made.
    pub fn granted(displaced: bool, bytes: usize, stores: u32) -> Self
        ensures { result ≡ shown (granting displaced bytes stores) }
    {
        Answer {
            number: 0,
            place: 0,
            link: 0,
            names: 1,
            displaced: u32::from(displaced),
            bytes,
            stores,
        }
    }

    // So many stores are needed: all of them were made, or the stop number was reached.
    pub fn stored(stores: u32, stop: u32, displaced: bool) -> Self
        ensures { result ≡ shown (stored stores stop displaced) }
    {
        if stop < stores {
            Answer::placeless(u32::from(Number::Stopped), 0, stop)
        } else {
            Answer::granted(displaced, 0, stores)
        }
    }
}

// "A refusal": nothing is done.
impl From<Refusal> for Answer {
    ghost from_gives = { λ f r. r ≡ answer_of (Err f) };

    fn from(refusal: Refusal) -> Answer {
        Answer::plain(u32::from(refusal.number), refusal.place, 0, 0)
    }
}
