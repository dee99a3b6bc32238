// exp, as nam-rs's activation.rs takes it from Rust's f32: here a table of 256 whole numbers and whole-number steps, equal bit for bit to the
// definition E. Document 01, 'Tanh and exp'.
//
// The ordinary values, |x| below 87, take one path without a branch: one comparison tells them, and all others are left to seldom. The table is a
// static, read in place.
#![tactic(auto)]

ghost use Rattle.std.specs.Prelude.{◌≡◌, ◌+◌, ◌*◌, ◌%◌, ◌^◌, ◌<◌};
ghost use Rattle.std.specs.Int.Signed.{mag};
ghost use Rattle.std.specs.Float.{binary32};
ghost use Rattle.std.specs.Float.Ieee.{of_bits};
ghost use Rattle.exponent.specs.Table.{entry};
ghost use Rattle.exponent.specs.Exp.{nearest, positive, magnitude, scaled, power, raised, between, exp_bits, E};
ghost use Rattle.exponent.specs.Split.{Splits};

use single::{not_a_number, to_bits};

// T: entry j is the whole number nearest to 2^(30 + j/256).
static TABLE: [u32; 256] = [
    1073741824, 1076653033, 1079572136, 1082499153, 1085434106, 1088377016, 1091327906, 1094286796,
    1097253708, 1100228665, 1103211687, 1106202798, 1109202018, 1112209370, 1115224875, 1118248556,
    1121280436, 1124320536, 1127368878, 1130425485, 1133490379, 1136563583, 1139645120, 1142735011,
    1145833280, 1148939949, 1152055042, 1155178580, 1158310587, 1161451085, 1164600099, 1167757650,
    1170923762, 1174098458, 1177281762, 1180473697, 1183674286, 1186883552, 1190101520, 1193328213,
    1196563654, 1199807867, 1203060876, 1206322705, 1209593378, 1212872918, 1216161350, 1219458698,
    1222764986, 1226080238, 1229404479, 1232737732, 1236080024, 1239431376, 1242791816, 1246161366,
    1249540052, 1252927899, 1256324931, 1259731174, 1263146652, 1266571390, 1270005413, 1273448747,
    1276901417, 1280363448, 1283834865, 1287315695, 1290805962, 1294305692, 1297814910, 1301333643,
    1304861917, 1308399756, 1311947188, 1315504238, 1319070932, 1322647296, 1326233356, 1329829140,
    1333434672, 1337049980, 1340675091, 1344310030, 1347954824, 1351609500, 1355274085, 1358948606,
    1362633090, 1366327563, 1370032052, 1373746586, 1377471191, 1381205894, 1384950723, 1388705706,
    1392470869, 1396246240, 1400031848, 1403827719, 1407633882, 1411450365, 1415277195, 1419114401,
    1422962010, 1426820052, 1430688553, 1434567544, 1438457051, 1442357104, 1446267730, 1450188960,
    1454120821, 1458063343, 1462016553, 1465980482, 1469955159, 1473940611, 1477936870, 1481943963,
    1485961921, 1489990772, 1494030547, 1498081275, 1502142985, 1506215708, 1510299473, 1514394310,
    1518500250, 1522617322, 1526745556, 1530884983, 1535035634, 1539197537, 1543370725, 1547555228,
    1551751076, 1555958300, 1560176931, 1564406999, 1568648537, 1572901575, 1577166143, 1581442275,
    1585730000, 1590029350, 1594340357, 1598663052, 1602997467, 1607343634, 1611701585, 1616071351,
    1620452965, 1624846459, 1629251865, 1633669214, 1638098541, 1642539877, 1646993254, 1651458706,
    1655936265, 1660425963, 1664927835, 1669441912, 1673968228, 1678506817, 1683057710, 1687620943,
    1692196547, 1696784557, 1701385007, 1705997930, 1710623359, 1715261330, 1719911875, 1724575029,
    1729250827, 1733939301, 1738640488, 1743354420, 1748081133, 1752820662, 1757573041, 1762338305,
    1767116489, 1771907628, 1776711757, 1781528911, 1786359126, 1791202437, 1796058879, 1800928489,
    1805811301, 1810707353, 1815616678, 1820539314, 1825475297, 1830424663, 1835387448, 1840363688,
    1845353420, 1850356681, 1855373507, 1860403934, 1865448001, 1870505744, 1875577199, 1880662405,
    1885761398, 1890874216, 1896000896, 1901141476, 1906295993, 1911464486, 1916646992, 1921843549,
    1927054196, 1932278970, 1937517909, 1942771053, 1948038440, 1953320108, 1958616096, 1963926443,
    1969251188, 1974590370, 1979944027, 1985312200, 1990694927, 1996092249, 2001504204, 2006930832,
    2012372174, 2017828268, 2023299156, 2028784876, 2034285470, 2039800978, 2045331439, 2050876895,
    2056437387, 2062012954, 2067603638, 2073209480, 2078830522, 2084466803, 2090118366, 2095785251,
    2101467502, 2107165158, 2112878262, 2118606857, 2124350982, 2130110682, 2135885998, 2141676973,
];

// A signed number's quotient, rounded down, and its remainder, which is not negative: -1 by 256 is -1 and 255.
#[derive(Clone, Copy)]
pub struct Parts {
    pub quotient: i64,
    pub remainder: u64,
}

// 2^exponent times size, the size in 1 / 2^62.
#[derive(Clone, Copy)]
pub struct Power {
    pub exponent: i64,
    pub size: u64,
}

// whole by 2^bits. The shift copies the sign, so it rounds down for negative numbers too.
fn split(whole: i64, bits: u32) -> Parts
    requires { (mag whole < 2 ^ 40) × (bits < 32) }
    ensures { Splits whole (2 ^ bits) result }
{
    let by = (1u64 << bits) as i64;
    let quotient = whole >> bits;
    let rest = whole - quotient * by;
    Parts {
        quotient,
        remainder: rest as u64,
    }
}

// Entry j of the table.
fn entry_of(j: u64) -> u64
    requires { j < 256 }
    ensures { result ≡ entry j }
{
    TABLE[j as usize] as u64
}

// 2^(j/256 + f/2^32) in 1 / 2^62.
pub fn power_of(j: u64, f: u64) -> u64
    requires { (j < 256) × (f < 2 ^ 24) }
    ensures { result ≡ power j f }
{
    let c = 1488522236 + f * 2016986 / 16777216;
    let w = f * c / 2147483648;
    entry_of(j) * (4294967296 + w)
}

// |x| log2 e in 1 / 2^32. A shift by 63 leaves 0, as any longer one would.
fn magnitude_of(bits: u32) -> u64
    requires { bits % 2 ^ 31 < 0x42d0_0000 }
    ensures { result ≡ magnitude bits }
{
    let a = (bits % 0x8000_0000) as u64;
    let m = 8388608 + a % 8388608;
    let e = a / 8388608;
    (m * 198282496599) >> (155 - e).min(63)
}

// x log2 e in 1 / 2^32: the sign is a factor, not a branch.
fn scaled_of(bits: u32) -> i64
    requires { bits % 2 ^ 31 < 0x42d0_0000 }
    ensures { result ≡ scaled bits }
{
    let negative = (bits / 0x8000_0000) as i64;
    (1 - 2 * negative) * (magnitude_of(bits) as i64)
}

// e^x, before it is rounded to a float.
fn raised_of(bits: u32) -> Power
    requires { bits % 2 ^ 31 < 0x42d0_0000 }
    ensures { result ≡ raised bits }
{
    // by 2^24: the whole part of x 256 log2 e, and its fraction
    let k = split(scaled_of(bits), 24);
    // by 256: the exponent, and the entry
    let j = split(k.quotient, 8);
    Power {
        exponent: j.quotient,
        size: power_of(j.remainder, k.remainder),
    }
}

// The pattern with the exponent's field up and the digits of size, shifted by down more than usual. The leading digit adds one to the field.
fn pattern_of(up: u64, down: u64, size: u64) -> u64
    requires { (up < 512) × (down < 26) }
    ensures { result ≡ up * 2 ^ 23 + nearest size (39 + down) }
{
    up * 8388608 + ((size >> (38 + down)) + 1) / 2
}

// |x| below 87: the result is no subnormal and no infinity.
fn ordinary(bits: u32) -> f32
    requires { bits % 2 ^ 31 < 0x42ae_0000 }
    ensures { result ≡ of_bits binary32 (exp_bits bits) }
{
    let p = raised_of(bits);
    let q = p.exponent + 126;
    f32::from_bits(pattern_of(q as u64, 0, p.size) as u32)
}

// z or 0, whichever is larger.
fn positive_of(z: i64) -> u64
    ensures { result ≡ positive z }
{
    z.max(0) as u64
}

// The values between the guards, where the result may be a subnormal or overflow.
fn edge(bits: u32) -> f32
    requires { bits % 2 ^ 31 < 0x42d0_0000 }
    ensures { result ≡ of_bits binary32 (between bits) }
{
    let p = raised_of(bits);
    let q = p.exponent + 126;
    let r = pattern_of(positive_of(q), positive_of(0 - q), p.size);
    f32::from_bits(r.min(0x7f80_0000) as u32)
}

// All other values: NaN, the guards, and the edges.
fn seldom(bits: u32) -> f32
    ensures { result ≡ of_bits binary32 (exp_bits bits) }
{
    let a = bits % 0x8000_0000;
    if 0x7f80_0000 < a {
        return not_a_number();
    }
    if bits < 0x8000_0000 {
        if 0x42b2_0000 <= a {
            return f32::from_bits(0x7f80_0000);
        }
    } else {
        if 0x42d0_0000 <= a {
            return f32::from_bits(0);
        }
    }
    edge(bits)
}

// E of x.
pub fn exp(x: f32) -> f32
    ensures { result ≡ E x }
{
    let bits = to_bits(x);
    if bits % 0x8000_0000 < 0x42ae_0000 {
        return ordinary(bits);
    }
    seldom(bits)
}
