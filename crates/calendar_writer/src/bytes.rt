// The fixed pieces of a Calendar file as arrays of bytes.
ghost use Rattle.std.specs.Prelude.{◌≡◌};
ghost use Rattle.calendar_writer.specs.Sums.{descriptor_of, block_head};
ghost use Rattle.calendar_writer.specs.Pieces.{head_mark, settings_words, appointment_head};

use calendar::types::{CalendarSettings, MARK};
use days::types::Minute;

pub fn head_mark(n: usize) -> [u8; 10]
    ensures { result ≡ head_mark n }
{
    let [a, b, c, d, e, f, g, h] = MARK;
    let [low, high, ..] = n.to_le_bytes();
    [a, b, c, d, e, f, g, h, low, high]
}

pub fn settings_words(s: CalendarSettings) -> [u8; 12]
    ensures { result ≡ settings_words s }
{
    let [r0, r1] = s.ring.to_le_bytes();
    let [s0, s1] = s.sound.to_le_bytes();
    let [c0, c1] = s.code.to_le_bytes();
    let [i0, i1] = s.interval.to_le_bytes();
    let [h0, h1] = s.hours24.to_le_bytes();
    let [m0, m1] = s.start.0.to_le_bytes();
    [r0, r1, s0, s1, c0, c1, i0, i1, h0, h1, m0, m1]
}

pub fn descriptor_of(day: usize, alarms: usize, unit: usize) -> [u8; 12]
    ensures { result ≡ descriptor_of day alarms unit }
{
    let [d0, d1, ..] = day.to_le_bytes();
    let [a0, a1, ..] = alarms.to_le_bytes();
    let [u0, u1, ..] = unit.to_le_bytes();
    [d0, d1, 0, 0, a0, a1, u0, u1, 0xFF, 0x0F, 0xFF, 0x0F]
}

pub fn block_head(day: usize, n: usize) -> [u8; 10]
    ensures { result ≡ block_head day n }
{
    let [d0, d1, ..] = day.to_le_bytes();
    let [n0, n1, ..] = n.to_le_bytes();
    [0, 0, d0, d1, 1, 0, 0, 0, n0, n1]
}

pub fn appointment_head(size: u8, flags: u8, minute: Minute) -> [u8; 4]
    ensures { result ≡ appointment_head size flags minute.0 }
{
    let [low, high] = minute.0.to_le_bytes();
    [size, flags, low, high]
}
