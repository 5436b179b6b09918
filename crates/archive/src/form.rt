// What both forms of a sheet share.
ghost use Rattle.std.specs.Prelude.{◌≡◌, ◌++◌, ◌≤◌, length};
ghost use Rattle.wire.specs.Number.{bytes_at, puts};
ghost use Rattle.sheet.specs.Read.{header_bytes};

use sheet::HEADER_BYTES;

// A mark, and after it bytes 3 to 6 of another form's header.
pub fn put_front(out: &mut [u8], mark: [u8; 3], from: &[u8])
    requires { (header_bytes ≤ length out.old) × (header_bytes ≤ length from.now) }
    ensures { out.new ≡ puts out.old 0 (bytes_at mark 0 3 ++ bytes_at from.now 3 4) }
{
    wire::put_mark(out, mark);
    wire::put_bytes(out, 3, &from[3..HEADER_BYTES]);
}
