//! Laws of the definitions of numbers and groups, each the contract of a function that does nothing at run time, for generic code to call.

ghost use Rattle.bitpack_groups.specs.Laws.{GroupReadsBack, GroupsAreRead, GroupsReadBack, LongestGroup, LongestGroups, LongestNumber, NumberReadsBack, OneGroup, OneGroupOfCodes, OneNumber, OneRunOfCodes};

/// Bytes without a fault begin with one number, the one that is read from them. Bytes that begin with a number are read as it.
pub fn one_number()
    ensures one { OneNumber }
    ensures back { NumberReadsBack }
{}

/// Bytes without a fault begin with the group of the codes that are read from them, bytes that begin with a group are read as its
/// codes, and codes have one group. So it is with groups one after the other.
pub fn one_group()
    ensures one { OneGroup }
    ensures back { GroupReadsBack }
    ensures codes { OneGroupOfCodes }
    ensures run { GroupsAreRead }
    ensures run_back { GroupsReadBack }
    ensures run_codes { OneRunOfCodes }
{}

/// A number has at most five bytes, and a group at most one beside four for each code.
// claim: groups/7-8 a number and a group have one form each, of at most 5 bytes, and 1 byte and 4 a code
pub fn longest()
    ensures number { LongestNumber }
    ensures group { LongestGroup }
    ensures groups { LongestGroups }
{}
