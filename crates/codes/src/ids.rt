// An id is a signed number in one octet.
ghost use Rattle.std.specs.Prelude.{◌≡◌};
ghost use Rattle.codes.specs.Ids.{id_of, octet_of};

pub fn id_of(octet: u8) -> i8
    ensures { result ≡ id_of octet }
{
    octet.cast_signed()
}

pub fn octet_of(id: i8) -> u8
    ensures { result ≡ octet_of id }
{
    id.cast_unsigned()
}
