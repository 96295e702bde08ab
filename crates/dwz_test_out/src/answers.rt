/// In a line words, apart at single blanks, and their answer: "usage", or the options as plain words. In a word `!` stands for a zero byte,
/// and `?` for one that is no text.
pub(crate) const ANSWERS: &str = r"# no job, or two
 => usage
-q => usage
-o x => usage
-m c => usage
--demo 5 a => usage
--demo 5 -- a => usage
--demo 5 -m c => usage
--demo 5 -M n => usage
--demo 5 -o x => usage
# each option
a => -j 4 -- a
one two three => -j 4 -- one two three
-q a => -q -j 4 -- a
--dwarf-5 a => -j 4 -- a
-m common one two => -m common -j 4 -- one two
-m common -M name one => -m common -M name -j 4 -- one
-o out a => -o out -j 4 -- a
-j 1 a => -j 1 -- a
-j 64 a => -j 64 -- a
--demo 2 => -j 4 --demo 2 --
--demo 10000 => -j 4 --demo 10000 --
--demo 50 -j 3 -q --dwarf-5 => -q -j 3 --demo 50 --
one -q -m common two --dwarf-5 -M n -j 64 three => -q -m common -M n -j 64 -- one two three
ä -o ö => -o ö -j 4 -- ä
# numbers
-j +4 a => -j 4 -- a
-j 04 a => -j 4 -- a
-j +0064 a => -j 64 -- a
-j4 a => -j 4 -- a
-j=4 a => -j 4 -- a
-qj4 a => -q -j 4 -- a
a -qj 6 b => -q -j 6 -- a b
--demo=50 => -j 4 --demo 50 --
-j 0 a => usage
-j 65 a => usage
-j -4 a => usage
-j=-4 a => usage
-j 4x a => usage
-j 0x4 a => usage
-j ++4 a => usage
-j 18446744073709551620 a => usage
-j= a => usage
-j => usage
--demo 1 => usage
--demo=10001 => usage
--demo => usage
# values and FILEs that begin with a dash
-o-x a => -o -x -j 4 -- a
-o=-x a => -o -x -j 4 -- a
-o=x a => -o x -j 4 -- a
-qox a => -q -o x -j 4 -- a
-o - a => -o - -j 4 -- a
- => -j 4 -- -
-- -q -- => -j 4 -- -q --
a -- -q --demo => -j 4 -- a -q --demo
--demo 5 -- => -j 4 --demo 5 --
-o -x a => usage
-o -- a => usage
-o -q a => usage
--- => usage
-5 => usage
# twice
-q -q a => usage
-qq a => usage
--dwarf-5 a --dwarf-5 => usage
-o x -o y a => usage
-j 2 -j 2 a => usage
-m c -m c a => usage
--demo 5 --demo 5 => usage
# words that aren't options
--help => usage
-h => usage
--version => usage
-V => usage
-x a => usage
-ä a => usage
--dwarf a => usage
--dem 5 => usage
-dwarf-5 a => usage
--dwarf-5=x a => usage
-q=x a => usage
help => -j 4 -- help
# which stand together
-M n a => usage
-o x a b => usage
-m c -o x a => usage
a a => usage
a b a => usage
-m a a => usage
-m b a b => usage
-m c -M c a => -m c -M c -j 4 -- a
-o a a => -o a -j 4 -- a
# places
--explain a 0x0 b 0x1f => -j 4 --explain -- a 0x0 b 0x1f
--explain a 0x1 a 0x2 => -j 4 --explain -- a 0x1 a 0x2
-q -j 3 --explain a 0xb b 0xc => -q -j 3 --explain -- a 0xb b 0xc
a 0x1 --explain --dwarf-5 b 0x2 => -j 4 --explain -- a 0x1 b 0x2
--explain -- -q 0x1 b 0x12345678 => -j 4 --explain -- -q 0x1 b 0x12345678
a 0X1 b 1 => -j 4 -- a 0X1 b 1
--explain a 0X1 b 0x2 => usage
--explain a 0x b 0x2 => usage
--explain a 0x1 b 0x => usage
--explain a 0x123456789 b 0x2 => usage
--explain a 0x1 b 0x000000001 => usage
--explain a 0xA b 0x2 => usage
--explain a 0x1 b 0x2F => usage
--explain a 1 b 0x2 => usage
--explain a 0x1 b 2 => usage
--explain a 0xg b 0x2 => usage
--explain a 0x+1 b 0x2 => usage
--explain a x1 b 0x2 => usage
--explain a  b 0x2 => usage
--explain 0x1 a 0x2 b => usage
--explain => usage
--explain a 0x1 b => usage
--explain a 0x1 b 0x2 c => usage
--explain a 0x1 b 0x2 c 0x3 => usage
--explain -o x a 0x1 b 0x2 => usage
--explain -m c a 0x1 b 0x2 => usage
--explain -M n a 0x1 b 0x2 => usage
--explain --demo 2 => usage
--explain --demo 2 a 0x1 b 0x2 => usage
--explain  0x1 b 0x2 => usage
--explain a 0x1  0x2 => usage
--explain a! 0x1 b 0x2 => usage
--explain --explain a 0x1 b 0x2 => usage
--explain=x a 0x1 b 0x2 => usage
# two files that are compared
--check a b => -j 4 --check -- a b
a --check b => -j 4 --check -- a b
a b -q -j 3 --check => -q -j 3 --check -- a b
--check a b --sup c => --sup c -j 4 --check -- a b
--sup=c --dwarf-5 a --check b => --sup c -j 4 --check -- a b
--sup - --check a b => --sup - -j 4 --check -- a b
--check --sup=-c a b => --sup -c -j 4 --check -- a b
--check -- --sup -q => -j 4 --check -- --sup -q
--check 0x1 0x2 => -j 4 --check -- 0x1 0x2
check sup => -j 4 -- check sup
--check => usage
--check a => usage
--check a b c => usage
--check a 0x1 b 0x2 => usage
--check a a => usage
--check a b --sup a => usage
--check a b --sup b => usage
--check a b --sup => usage
--check a b --sup -c => usage
--check a b --sup -- c => usage
--check a b --sup= => usage
--check a b --sup c! => usage
--check a! b => usage
--check a b --sup c --sup c => usage
--check --check a b => usage
--check=a b => usage
--check -o x a b => usage
--check -m c a b => usage
--check -M n a b => usage
--check -M n a b --sup c => usage
--check --demo 2 => usage
--check --demo 2 a b => usage
--check --explain a 0x1 b 0x2 => usage
--check --explain a b => usage
--sup c => usage
--sup c a => usage
--sup c a b => usage
--sup c -m d a b => usage
--sup c --demo 2 => usage
--sup c --explain a 0x1 b 0x2 => usage
--sup c -o x a => usage
--chec a b => usage
-check a b => usage
# a file that is expanded
--expand a -o x => -o x -j 4 --expand -- a
-o x a --expand => -o x -j 4 --expand -- a
-q -j 3 a -o x --expand => -q -o x -j 3 --expand -- a
--expand a -o a => -o a -j 4 --expand -- a
--expand a --sup c -o x => -o x --sup c -j 4 --expand -- a
-ox --sup=c --dwarf-5 --expand a => -o x --sup c -j 4 --expand -- a
--expand -o x -- --expand => -o x -j 4 --expand -- --expand
expand sup -- => -j 4 -- expand sup
--expand => usage
--expand a => usage
--expand -o x => usage
--expand a b -o x => usage
--expand a b => usage
--expand a 0x1 b 0x2 -o x => usage
--expand a --sup c => usage
--expand a --sup a -o x => usage
--expand a --sup x -o x => usage
--expand a --sup c -o c => usage
--expand a --sup a -o a => usage
--expand a --sup -o x => usage
--expand a --sup= -o x => usage
--expand a --sup c! -o x => usage
--expand a -o x! => usage
--expand a! -o x => usage
--expand a -o= => usage
--expand --expand a -o x => usage
--expand=a -o x => usage
--expand a -o x -o y => usage
--expand a --sup c --sup c -o x => usage
--expand -m c a -o x => usage
--expand -M n a -o x => usage
--expand -M n a --sup c -o x => usage
--expand --demo 2 => usage
--expand --demo 2 -o x => usage
--expand --demo 2 a -o x => usage
--expand --check a b => usage
--expand --check a -o x => usage
--expand --check a b -o x => usage
--expand --explain a 0x1 b 0x2 => usage
--expand --explain a -o x => usage
--expan a -o x => usage
-expand a -o x => usage
# files over a common file that is there
--reuse c a => --reuse c -j 4 -- a
--reuse=c -M n a b => -M n --reuse c -j 4 -- a b
-q -j 3 a --reuse c -o x => -q -o x --reuse c -j 3 -- a
--reuse c a -o a => -o a --reuse c -j 4 -- a
--reuse c -- --reuse => --reuse c -j 4 -- --reuse
--reuse c => usage
--reuse a a => usage
--reuse c a a => usage
--reuse c a b -o x => usage
--reuse c a -o c => usage
--reuse= a => usage
--reuse c! a => usage
--reuse c --reuse d a => usage
--reuse c -m d a => usage
--reuse c --sup d a => usage
--reuse c --check a b => usage
--reuse c --expand a -o x => usage
--reuse c --explain a 0x1 b 0x2 => usage
--reuse c --demo 2 => usage
--reus c a => usage
# many files over it, each as if it were alone
--batch c a => --batch c -j 4 -- a
--batch=c -M n a b => -M n --batch c -j 4 -- a b
-q -j 3 a b --batch c --dwarf-5 => -q --batch c -j 3 -- a b
--batch c -- --batch => --batch c -j 4 -- --batch
--batch c => usage
--batch a a => usage
--batch c a a => usage
--batch c a -o x => usage
--batch= a => usage
--batch c! a => usage
--batch c --batch d a => usage
--batch c --reuse d a => usage
--batch c -m d a => usage
--batch c --sup d a => usage
--batch c --check a b => usage
--batch c --expand a => usage
--batch c --explain a 0x1 b 0x2 => usage
--batch c --demo 2 => usage
--batc c a => usage
# empty words
 a => usage
-o  a => usage
-o= a => usage
-m= a => usage
-m c -M  a => usage
# with zero bytes, and with a byte that is no text
a! => usage
-o! a => usage
a? => usage";
