//! Values of each form, spelled by hand from the standard's tables of forms.

use crate::expect::{bytes_of, prints_as, same, split_bar};
use dwz_bytes::Cursor;
use dwz_forms::{read_value, write_value};
use dwz_model::Pair;

// A form in hexadecimal, the bytes of a value, and the value: numbers of a width, LEB128 numbers, bytes, and what no bytes stand for.
const VALUES: &str = "\
01|0040400000000000|Number(4210688)
0b|c8|Number(200)
05|feff|Number(65534)
06|ffffffff|Number(4294967295)
07|ffffffffffffffff|Number(18446744073709551615)
0c|01|Number(1)
0e|05000000|Number(5)
10|0c000000|Number(12)
11|1e|Number(30)
12|1e01|Number(286)
13|1e000100|Number(65566)
14|0000000001000000|Number(4294967296)
17|0c000080|Number(2147483660)
1f|01010000|Number(257)
20|0000000000000080|Number(9223372036854775808)
25|ff|Number(255)
26|00ff|Number(65280)
27|010203|Number(197121)
28|01020304|Number(67305985)
29|07|Number(7)
2a|0701|Number(263)
2b|000080|Number(8388608)
2c|00000080|Number(2147483648)
0d|807f|Number(-128)
0f|e58e26|Number(624485)
15|8001|Number(128)
1a|00|Number(0)
1b|02|Number(2)
22|03|Number(3)
23|7f|Number(127)
0f|ffffffffffffffffff01|Number(18446744073709551615)
08|696e7400|Bytes([105, 110, 116])
0a|020708|Bytes([7, 8])
03|02000708|Bytes([7, 8])
04|020000000708|Bytes([7, 8])
09|020708|Bytes([7, 8])
18|019c|Bytes([156])
1e|30313233343536373839616263646566|Bytes([48, 49, 50, 51, 52, 53, 54, 55, 56, 57, 97, 98, 99, 100, 101, 102])
19||Number(0)
21||Number(-7)";

// The bytes read as the value, and the value is written as the bytes.
#[test]
fn reads_and_writes_values(rt: HostRuntime) {
    let alloc = rt.alloc();
    for row in VALUES.lines() {
        let (form, row) = split_bar(&rt, row);
        let (digits, value) = split_bar(&rt, row);
        let form = u16::from_str_radix(form, 16).expect(&rt, "a form");
        let bytes = bytes_of(&rt, alloc, digits);
        let pair = Pair {
            name: 3,
            form: u64::from(form),
            constant: -7,
        };
        let mut cursor = Cursor::new(&bytes, 0);
        let found = read_value(&mut cursor, &pair).expect(&rt, "a value");
        prints_as(&rt, alloc, row, &found, value);
        let mut out = Vec::new(alloc);
        write_value(form, &found, &mut out).expect(&rt, "no memory");
        same(&rt, &out, &bytes);
    }
}
