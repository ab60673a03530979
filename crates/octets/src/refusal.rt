// Why bytes or fields are refused (document 01, "Refusal numbers").
ghost use Rattle.std.specs.Prelude.{◌≡◌};
ghost use Rattle.octets.specs.Refusals.{number};

// Each refusal has its number of the document as its value.
#[derive(Clone, Copy, PartialEq, Eq)]
pub enum Refusal {
    // bytes end early
    EndsEarly = 1,
    // the first byte is no start byte
    NoStartByte = 2,
    // LE is not 4 to 249, LE and LEr are unequal, or the second SD2 is wrong
    LengthBytes = 3,
    // bytes follow the telegram or book
    BytesFollow = 4,
    // the end byte is not 16 hex
    EndByte = 5,
    // the checksum is wrong
    Checksum = 6,
    // an address is out of range
    Address = 7,
    // the function code is reserved
    FunctionCode = 8,
    // an address extension is missing or above 63
    AddressExtension = 9,
    // the pair of access points is not in the service table, or the way is wrong
    NoService = 10,
    // the lent output is too small
    NoRoom = 11,
    // a telegram's field or a setting of the caller is out of range
    Field = 12,
    // the length of the service data is wrong
    DataLength = 20,
    // a fixed bit or a ranged byte is wrong
    DataByte = 21,
    // the Ext_Diag bit and the blocks disagree
    ExtDiag = 22,
    // a diagnosis block header is reserved, or its length is below 2
    BlockHeader = 23,
    // a block or a module runs past the data
    PastTheData = 24,
    // a channel block has a reserved code
    ChannelCode = 25,
    // a module of a configuration has the vendor count 15
    VendorCount = 26,
    // a configuration has over 244 bytes of inputs or outputs
    OverLimit = 27,
    // a DPV1 function or error code is reserved
    Dpv1Code = 28,
    // the code of a typed value is not 1 to 8, or a Boolean is not 00 or FF
    TypedCode = 29,
    // the table of a template book is wrong
    BookTable = 32,
}

impl Refusal {
    // The refusal's number.
    pub fn number(self) -> u8
        ensures { result ≡ number self }
    {
        self as u8
    }
}
