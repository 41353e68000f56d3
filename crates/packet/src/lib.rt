// What comes in beside the words: the settings of a start, a packet's header with the ranges of its fields, and where its words stand. Here stand
// the limits too. Document 01, "Calls and settings" and "Bench file".
#![tactic(auto)]

ghost use Rattle.std.specs.Prelude.{◌≡◌, ◌≤◌};
ghost use Rattle.packet.specs.Settings.{counts_orbits, gives_rule_number, gives_rule};
ghost use Rattle.packet.specs.Packet.{in_range, packet_from, gives_fields, gives_packet, stride, position_of, GoodPlace};

use refusals::Refusal;

// Words that a packet takes.
pub const MAX_WORDS: u16 = 4096;

// Packets that a tracker accepts. 02, ticket 7: their count stops here.
pub const MOST_PACKETS: u32 = 4_294_967_295;

// The largest position of a packet, 2^62.
pub const MAX_POSITION: u64 = 0x4000_0000_0000_0000;

// The largest BC of a packet.
pub const MAX_PACKET_BC: u64 = 4095;

// How the period between two internal triggers is found. 02, ticket 9: rule 1 sees the place in the orbit alone, rule 2 counts orbits too.
#[derive(Clone, Copy, Debug, PartialEq, Eq)]
pub enum Rule {
    One = 1,
    Two = 2,
}

// A number that is no rule's: neither 1 nor 2.
#[derive(Clone, Copy, Debug, PartialEq, Eq)]
pub struct UnknownRule(pub u64);

impl Rule {
    pub fn counts_orbits(self) -> bool
        ensures { result ≡ counts_orbits self }
    {
        // By matches!: with the derived == the checks of a TDH are no longer inlined, and khz_payload takes 4% more instructions.
        matches!(self, Rule::Two)
    }
}

impl From<Rule> for u64 {
    ghost from_gives = { gives_rule_number };

    fn from(rule: Rule) -> u64 {
        rule as u64
    }
}

impl TryFrom<u64> for Rule {
    type Error = UnknownRule;

    ghost try_from_gives = { gives_rule };

    fn try_from(n: u64) -> Result<Rule, UnknownRule> {
        match n {
            1 => Ok(Rule::One),
            2 => Ok(Rule::Two),
            _ => Err(UnknownRule(n)),
        }
    }
}

// Fixed at the start: running checks, frames, a period that is there or not, and the rule that finds it.
#[derive(Clone, Copy, Debug, PartialEq, Eq)]
pub struct Settings {
    pub running: bool,
    pub frames: bool,
    pub period: Option<u32>,
    pub rule: Rule,
}

// What a packet's header says.
#[derive(Clone, Copy, Debug, PartialEq, Eq)]
pub struct Packet {
    pub position: u64,
    pub orbit: u32,
    pub trigger: u32,
    pub bc: u16,
    pub page: u16,
    pub stop: u8,
    pub format: u8,
}

// A packet's fields as they are given: numbers of any size.
#[derive(Clone, Copy, Debug, PartialEq, Eq)]
pub struct PacketFields {
    pub position: u64,
    pub orbit: u64,
    pub trigger: u64,
    pub bc: u64,
    pub page: u64,
    pub stop: u64,
    pub format: u64,
}

impl PacketFields {
    // Whether each field is in its range, asked before any of them is made narrow.
    pub fn is_in_range(self) -> bool
        ensures { result ≡ in_range (packet_from self) }
    {
        (self.position <= MAX_POSITION)
            & ((self.orbit < 0x1_0000_0000)
                & ((self.trigger < 0x1_0000_0000)
                    & ((self.bc <= MAX_PACKET_BC)
                        & ((self.page < 0x1_0000)
                            & ((self.stop < 0x100) & ((self.format == 0) | (self.format == 2)))))))
    }
}

impl From<Packet> for PacketFields {
    ghost from_gives = { gives_fields };

    fn from(packet: Packet) -> PacketFields {
        PacketFields {
            position: packet.position,
            orbit: u64::from(packet.orbit),
            trigger: u64::from(packet.trigger),
            bc: u64::from(packet.bc),
            page: u64::from(packet.page),
            stop: u64::from(packet.stop),
            format: u64::from(packet.format),
        }
    }
}

// A field out of its range is refused with 5.
impl TryFrom<PacketFields> for Packet {
    type Error = Refusal;

    ghost try_from_gives = { gives_packet };

    fn try_from(fields: PacketFields) -> Result<Packet, Refusal> {
        if !fields.is_in_range() {
            return Err(Refusal::Packet);
        }
        Ok(Packet {
            position: fields.position,
            orbit: fields.orbit as u32,
            trigger: fields.trigger as u32,
            bc: fields.bc as u16,
            page: fields.page as u16,
            stop: fields.stop as u8,
            format: fields.format as u8,
        })
    }
}

// The test of a packet whose fields stand in their own types.
pub fn in_range(packet: Packet) -> bool
    ensures { result ≡ in_range packet }
{
    PacketFields::from(packet).is_in_range()
}

// Bytes from one word to the next.
pub fn stride(format: u64) -> u64
    ensures value { result ≡ stride format }
    ensures upper_bound { result ≤ 16 }
{
    if format == 0 { 16 } else { 10 }
}

// Where the word after so many stands.
pub fn position(packet: Packet, taken: u16) -> u64
    requires { GoodPlace packet taken }
    ensures { result ≡ position_of packet taken }
{
    packet.position + 64 + u64::from(taken) * stride(u64::from(packet.format))
}
