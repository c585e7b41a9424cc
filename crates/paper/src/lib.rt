// The declared types of the format. This crate has no code: specs/ has document 01 in its own numbers and bytes.
#![tactic(auto)]

// The four systems: 1080/60/I, 1080/50/I, 720/60/P and 720/50/P.
#[derive(Clone, Copy, PartialEq, Eq)]
pub enum System {
    I60,
    I50,
    P60,
    P50,
}

// The sample counts of a system: two at 60 Hz, one at 50 Hz, where both fields have it.
#[derive(Clone, Copy)]
pub struct Counts {
    pub fewer: u32,
    pub more: u32,
}

// The five sections of a sequence.
#[derive(Clone, Copy, PartialEq, Eq)]
pub enum Section {
    Header,
    Subcode,
    Vaux,
    Audio,
    Video,
}

// A DBN: the number of a block in its section.
#[derive(Clone, Copy, PartialEq, Eq)]
pub struct BlockNumber(pub u32);

// One of the 150 places of a sequence.
#[derive(Clone, Copy, PartialEq, Eq)]
pub struct Place(pub u32);

// What stands at a place: a section, and a block's number in it.
#[derive(Clone, Copy)]
pub struct Entry {
    pub section: Section,
    pub number: BlockNumber,
}

// What an ID names.
#[derive(Clone, Copy)]
pub struct BlockId {
    pub section: Section,
    pub channel: u32,
    pub dseq: u32,
    pub dbn: BlockNumber,
}

// The spare bits of an ID, which name nothing: arbitrary are bits 3-0 of byte 0; reserved are bit 4 of byte 0, with weight 4, and
// bits 1-0 of byte 1.
#[derive(Clone, Copy)]
pub struct Spare {
    pub arbitrary: u32,
    pub reserved: u32,
}

// The answer to an ID: a named block with the spare bits beside it, fault 11, or refusal 4.
#[derive(Clone, Copy)]
pub enum IdAnswer {
    Named(BlockId, Spare),
    Reserved,
    WrongLength,
}

// The paper's number and values for an answer to an ID. This and the other answers that C is handed lie as C lays them.
#[repr(C)]
#[derive(Clone, Copy)]
pub struct IdValues {
    pub number: u32,
    pub section: u32,
    pub channel: u32,
    pub dseq: u32,
    pub dbn: u32,
    pub arbitrary: u32,
    pub reserved: u32,
}

// Why a call refuses, and what is wrong with a block, each with document 01's number.
#[derive(Clone, Copy, PartialEq, Eq)]
pub enum Cause {
    NoSystem = 1,
    FrameLength = 2,
    OutsideSystem = 3,
    LentLength = 4,
    ReservedSection = 11,
    OtherSection = 12,
    OtherChannel = 13,
    OtherDseq = 14,
    OtherDbn = 15,
    DsfDisagrees = 21,
    VsDisagrees = 22,
    Flagged = 23,
    AsBreaksRules = 24,
    AsDiffers = 25,
    SubcodeBreaksRules = 26,
    SubcodeDiffers = 27,
    NotTheCount = 29,
    NoSample = 31,
    TimeBreaksRules = 32,
    Unrecorded = 33,
}

// A survey record: where a block stands that does not name its place, and its fault.
#[derive(Clone, Copy)]
pub struct Fault {
    pub channel: u32,
    pub sequence: u32,
    pub place: Place,
    pub fault: u32,
}

// What a survey answers, and salvage.
#[repr(C)]
#[derive(Clone, Copy)]
pub struct Survey {
    pub number: u32,
    pub total: u32,
    pub kept: u32,
}

// A part of a frame, by its first byte and its length.
#[repr(C)]
#[derive(Clone, Copy)]
pub struct Part {
    pub number: u32,
    pub start: u32,
    pub length: u32,
}

// A pack: its header PC0 and four bytes.
#[derive(Clone, Copy, PartialEq, Eq)]
pub struct Pack {
    pub pc0: u8,
    pub pc1: u8,
    pub pc2: u8,
    pub pc3: u8,
    pub pc4: u8,
}

// What the subcode of every sequence of a frame says.
#[derive(Clone, Copy)]
pub struct SubcodeData {
    pub time: Pack,
    pub group: Pack,
}

// What every sequence of a frame repeats: what its subcode says, VS and VSC, and the ASC.
#[derive(Clone, Copy)]
pub struct Repeated {
    pub subcode: SubcodeData,
    pub vs: Pack,
    pub vsc: Pack,
    pub asc: Pack,
}

// What the pack of an SSYB is, by its position.
#[derive(Clone, Copy)]
pub enum SubcodePack {
    TimeCode,
    BinaryGroup,
    NoPack,
}

// A sample is a level, or it is lost.
#[derive(Clone, Copy)]
pub enum Sample {
    Level(i16),
    Lost,
}

// A picture slot: a video block of a sequence of a DIF channel.
#[derive(Clone, Copy, PartialEq, Eq)]
pub struct Slot {
    pub channel: u32,
    pub sequence: u32,
    pub video: BlockNumber,
}

// What an audio read answers.
#[repr(C)]
#[derive(Clone, Copy)]
pub struct AudioAnswer {
    pub number: u32,
    pub count: u32,
}

// What a time code read answers: four bytes of time code and four of binary group.
#[repr(C)]
#[derive(Clone, Copy)]
pub struct TimeAnswer {
    pub number: u32,
    pub time: [u8; 4],
    pub group: [u8; 4],
}
