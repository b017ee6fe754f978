// The logger's calls as a C program links them.
//
// Each hands on to the call of that name in `logger`, whose contract it repeats. The C names and the C convention are exported from
// this crate alone, so that `logger` stays a plain library. In C a slice is a pointer and then a number of bytes: see
// include/bilgelongan.h.
#![tactic(auto)]

ghost use Rattle.logger.specs.Calls.{AnswersCheck, AnswersTag, TriesPolynomial};

/// [`logger::sonde_tag`] for C: writes the 16 bytes of the hash and the 16 of the tag to the beginning of the output.
///
/// Returns 0; or, with the output as it was, the first that holds of -1 (header over 65,535 bytes), -2 (body over 68,719,476,704
/// bytes) and -15 (output under 32 bytes).
#[unsafe(no_mangle)]
pub extern "C" fn sonde_tag(
    subkey_high: u64,
    subkey_low: u64,
    pad_high: u64,
    pad_low: u64,
    header: &[u8],
    body: &[u8],
    output: &mut [u8],
) -> i32
    ensures { AnswersTag subkey_high subkey_low pad_high pad_low
        header.now body.now output.old result output.new }
{
    logger::sonde_tag(
        subkey_high,
        subkey_low,
        pad_high,
        pad_low,
        header,
        body,
        output,
    )
}

/// [`logger::sonde_check_tag`] for C: compares a given tag of 4 to 16 bytes with as many first bytes of the message's tag.
///
/// Returns 0 where they are equal; else the first that holds of -7 (the given tag has another length), -1 and -2 (header or body
/// too long, as above) and -8 (the tag differs).
#[unsafe(no_mangle)]
pub extern "C" fn sonde_check_tag(
    subkey_high: u64,
    subkey_low: u64,
    pad_high: u64,
    pad_low: u64,
    header: &[u8],
    body: &[u8],
    tag: &[u8],
) -> i32
    ensures { AnswersCheck subkey_high subkey_low pad_high pad_low
        header.now body.now tag.now result }
{
    logger::sonde_check_tag(
        subkey_high,
        subkey_low,
        pad_high,
        pad_low,
        header,
        body,
        tag,
    )
}

/// [`logger::sonde_try_polynomial`] for C: tries the polynomial t^128 + c_127 t^127 + .. + c_0 whose c_j are the proposal's bits.
///
/// Returns 0 to 128, how many of the c_j are one, where it annihilates the subkey; and -3 where it does not.
#[unsafe(no_mangle)]
pub extern "C" fn sonde_try_polynomial(
    subkey_high: u64,
    subkey_low: u64,
    proposal_high: u64,
    proposal_low: u64,
) -> i32
    ensures { TriesPolynomial subkey_high subkey_low proposal_high proposal_low result }
{
    logger::sonde_try_polynomial(subkey_high, subkey_low, proposal_high, proposal_low)
}
