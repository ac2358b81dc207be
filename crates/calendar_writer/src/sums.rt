// A day's appointments as one sum, `sum_of`: their number, their alarms and their bytes. The weights of its appointments make it up.
// Kept: three numbers packed in a u64: the clauses of `measure` (`sum_up`) and `put_table` (`sum_table`) are on slices of u64.
ghost use Rattle.std.specs.Prelude.{◌≡◌, ◌≤◌};
ghost use Rattle.texts.specs.Notes.{most_text};
ghost use Rattle.calendar_writer.specs.Sums.{count_in, alarms_in, bytes_in, weight_of};

// The number of appointments in a sum.
pub fn count_in(sum: u64) -> usize
    ensures { result ≡ count_in sum }
{
    (sum / 4294967296) as usize
}

// The number of alarms.
pub fn alarms_in(sum: u64) -> usize
    ensures { result ≡ alarms_in sum }
{
    (sum / 65536 % 65536) as usize
}

// The bytes of the appointments.
pub fn bytes_in(sum: u64) -> usize
    ensures { result ≡ bytes_in sum }
{
    (sum % 65536) as usize
}

// The sum of one appointment, of a text's length, with an alarm or without.
pub fn weight_of(alarm: bool, length: usize) -> u64
    requires { length ≤ most_text }
    ensures { result ≡ weight_of alarm length }
{
    4294967296 + 65536 * u64::from(alarm) + (5 + length as u64)
}
