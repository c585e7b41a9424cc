// The 150 places of a sequence: the printed table, and the rule that turns a place into a block of a section and back.
ghost use Rattle.std.specs.Prelude.{◌≡◌};
ghost use Rattle.rules_format.specs.Places.{code_of, section_of, blocks_of, entry_at, place_for, place_of};
ghost use Rattle.rules_format.specs.Judging.{printed_places, entry_of};

use crate::PLACES;
use paper::{BlockNumber, Entry, Place, Section};

// A section's number in an ID.
pub fn section_code(s: Section) -> u32
    ensures { result ≡ code_of s }
{
    match s {
        Section::Header => 0,
        Section::Subcode => 1,
        Section::Vaux => 2,
        Section::Audio => 3,
        Section::Video => 4,
    }
}

// The section of a number below 5.
pub fn section_of(code: u32) -> Section
    ensures { result ≡ section_of code }
{
    match code {
        0 => Section::Header,
        1 => Section::Subcode,
        2 => Section::Vaux,
        3 => Section::Audio,
        _ => Section::Video,
    }
}

// Section and number as one number of the printed table, where an ID has them: its first byte lowest.
const N: u32 = 65536;

const H: u32 = 0;

const SC: u32 = 32;

const VA: u32 = 64;

const A: u32 = 96;

const V: u32 = 128;

// The 150 places, a line for the first six, then one for each bank.
#[rattlefmt::skip]
const FIGURE_3: [u32; 150] = [
    // H0, SC0, SC1, VA0, VA1, VA2
      H+0*N,  SC+0*N,  SC+1*N,  VA+0*N,  VA+1*N,  VA+2*N,
    // A0, V0 to V14
      A+0*N,   V+0*N,   V+1*N,   V+2*N,   V+3*N,   V+4*N,   V+5*N,   V+6*N,   V+7*N,   V+8*N,   V+9*N,  V+10*N,  V+11*N,  V+12*N,  V+13*N,  V+14*N,
    // A1, V15 to V29
      A+1*N,  V+15*N,  V+16*N,  V+17*N,  V+18*N,  V+19*N,  V+20*N,  V+21*N,  V+22*N,  V+23*N,  V+24*N,  V+25*N,  V+26*N,  V+27*N,  V+28*N,  V+29*N,
    // A2, V30 to V44
      A+2*N,  V+30*N,  V+31*N,  V+32*N,  V+33*N,  V+34*N,  V+35*N,  V+36*N,  V+37*N,  V+38*N,  V+39*N,  V+40*N,  V+41*N,  V+42*N,  V+43*N,  V+44*N,
    // A3, V45 to V59
      A+3*N,  V+45*N,  V+46*N,  V+47*N,  V+48*N,  V+49*N,  V+50*N,  V+51*N,  V+52*N,  V+53*N,  V+54*N,  V+55*N,  V+56*N,  V+57*N,  V+58*N,  V+59*N,
    // A4, V60 to V74
      A+4*N,  V+60*N,  V+61*N,  V+62*N,  V+63*N,  V+64*N,  V+65*N,  V+66*N,  V+67*N,  V+68*N,  V+69*N,  V+70*N,  V+71*N,  V+72*N,  V+73*N,  V+74*N,
    // A5, V75 to V89
      A+5*N,  V+75*N,  V+76*N,  V+77*N,  V+78*N,  V+79*N,  V+80*N,  V+81*N,  V+82*N,  V+83*N,  V+84*N,  V+85*N,  V+86*N,  V+87*N,  V+88*N,  V+89*N,
    // A6, V90 to V104
      A+6*N,  V+90*N,  V+91*N,  V+92*N,  V+93*N,  V+94*N,  V+95*N,  V+96*N,  V+97*N,  V+98*N,  V+99*N, V+100*N, V+101*N, V+102*N, V+103*N, V+104*N,
    // A7, V105 to V119
      A+7*N, V+105*N, V+106*N, V+107*N, V+108*N, V+109*N, V+110*N, V+111*N, V+112*N, V+113*N, V+114*N, V+115*N, V+116*N, V+117*N, V+118*N, V+119*N,
    // A8, V120 to V134
      A+8*N, V+120*N, V+121*N, V+122*N, V+123*N, V+124*N, V+125*N, V+126*N, V+127*N, V+128*N, V+129*N, V+130*N, V+131*N, V+132*N, V+133*N, V+134*N,
];

// The printed table by value: a loop over the places takes it once.
pub fn printed_places() -> [u32; 150]
    ensures { result ≡ printed_places }
{
    FIGURE_3
}

// The section and the number that a number of the printed table stands for.
pub fn entry_of(number: u32) -> Entry
    ensures { result ≡ entry_of number }
{
    Entry {
        section: section_of(number % 65536 / 32),
        number: BlockNumber(number / 65536),
    }
}

// A block of a section.
fn block(section: Section, number: u32) -> Entry
    ensures { result ≡ record { section = section; number = record { 0 = number } } }
{
    Entry {
        section: section,
        number: BlockNumber(number),
    }
}

// What stands at a place, by the rule, since of the table by value one entry costs as much as all. Past the 150 there is none, and
// H0 stands in.
pub fn entry_at(p: Place) -> Entry
    ensures { result ≡ entry_at p }
{
    let at = p.0;
    if PLACES <= at {
        return block(Section::Header, 0);
    }
    if at < 1 {
        return block(Section::Header, at);
    }
    if at < 3 {
        return block(Section::Subcode, at - 1);
    }
    if at < 6 {
        return block(Section::Vaux, at - 3);
    }
    let a = (at - 6) / 16;
    let i = (at - 6) % 16;
    if i == 0 {
        return block(Section::Audio, a);
    }
    block(Section::Video, 15 * a + i - 1)
}

// How many blocks a section has in a sequence.
fn blocks(s: Section) -> u32
    ensures { result ≡ blocks_of s }
{
    match s {
        Section::Header => 1,
        Section::Subcode => 2,
        Section::Vaux => 3,
        Section::Audio => 9,
        Section::Video => 135,
    }
}

// The place of a section's block. Past the section's blocks there is none, and 150 stands in, which is no place.
pub fn place_in(section: Section, number: BlockNumber) -> Place
    ensures { result ≡ place_for section number }
{
    let k = number.0;
    if blocks(section) <= k {
        return Place(PLACES);
    }
    match section {
        Section::Header => Place(k),
        Section::Subcode => Place(1 + k),
        Section::Vaux => Place(3 + k),
        Section::Audio => Place(6 + 16 * k),
        Section::Video => Place(7 + 16 * (k / 15) + k % 15),
    }
}

// The same of an entry, nowhere where there is none. No call asks it yet: it is there for finding where a block belongs whose
// place is not known.
pub fn place_of(e: Entry) -> Option<Place>
    ensures { result ≡ place_of e }
{
    let section = e.section;
    let p = place_in(section, e.number);
    if PLACES <= p.0 {
        return None;
    }
    Some(p)
}
