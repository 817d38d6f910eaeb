//! What follows from the definitions alone.
ghost use Rattle.bt_text.specs.Bytes.{PrintedBytesAreRead, StandardTextIsDecodedAsItIs};
ghost use Rattle.bt_text.specs.Int64.{PrintedNumbersAreRead};
ghost use Rattle.bt_text.specs.Printed.{PrintedDurationsAreRead, PrintedMomentsAreRead};
ghost use Rattle.bt_text.specs.Calendar.{YearsBegin};

/// What `print_bytes` writes, `read_bytes` reads back.
pub fn printed_bytes_are_read()
    ensures { PrintedBytesAreRead }
{}

/// What `print_int64` writes, `read_int64` reads back.
pub fn printed_numbers_are_read()
    ensures { PrintedNumbersAreRead }
{}

/// What `print_timestamp` writes, `read_timestamp` reads back.
pub fn printed_moments_are_read()
    ensures { PrintedMomentsAreRead }
{}

/// What `print_duration` writes, `read_duration` reads back, up to 315,576,000,000 seconds.
pub fn printed_durations_are_read()
    ensures { PrintedDurationsAreRead }
{}

/// On which days the years 1, 1970 and 10000 begin.
pub fn years_begin()
    ensures { YearsBegin }
{}

/// Of a text for which `is_standard_text` holds, `read_bytes` changes nothing before it decodes it.
pub fn standard_text_is_decoded_as_it_is()
    ensures { StandardTextIsDecodedAsItIs }
{}
