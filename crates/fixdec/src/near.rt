//! Guesses of quotients and roots. Nothing is promised of them: whoever takes one tests it, and a
//! wrong one costs time alone.

// about 2^19 / i, by the nine leading bits i of a divisor, from 256 on
const INVERSES: [u16; 256] = [
    2045, 2037, 2029, 2021, 2013, 2005, 1998, 1990, 1983, 1975, 1968, 1960, 1953, 1946, 1938, 1931,
    1924, 1917, 1910, 1903, 1896, 1889, 1883, 1876, 1869, 1863, 1856, 1849, 1843, 1836, 1830, 1824,
    1817, 1811, 1805, 1799, 1792, 1786, 1780, 1774, 1768, 1762, 1756, 1750, 1745, 1739, 1733, 1727,
    1722, 1716, 1710, 1705, 1699, 1694, 1688, 1683, 1677, 1672, 1667, 1661, 1656, 1651, 1646, 1641,
    1636, 1630, 1625, 1620, 1615, 1610, 1605, 1600, 1596, 1591, 1586, 1581, 1576, 1572, 1567, 1562,
    1558, 1553, 1548, 1544, 1539, 1535, 1530, 1526, 1521, 1517, 1513, 1508, 1504, 1500, 1495, 1491,
    1487, 1483, 1478, 1474, 1470, 1466, 1462, 1458, 1454, 1450, 1446, 1442, 1438, 1434, 1430, 1426,
    1422, 1418, 1414, 1411, 1407, 1403, 1399, 1396, 1392, 1388, 1384, 1381, 1377, 1374, 1370, 1366,
    1363, 1359, 1356, 1352, 1349, 1345, 1342, 1338, 1335, 1332, 1328, 1325, 1322, 1318, 1315, 1312,
    1308, 1305, 1302, 1299, 1295, 1292, 1289, 1286, 1283, 1280, 1276, 1273, 1270, 1267, 1264, 1261,
    1258, 1255, 1252, 1249, 1246, 1243, 1240, 1237, 1234, 1231, 1228, 1226, 1223, 1220, 1217, 1214,
    1211, 1209, 1206, 1203, 1200, 1197, 1195, 1192, 1189, 1187, 1184, 1181, 1179, 1176, 1173, 1171,
    1168, 1165, 1163, 1160, 1158, 1155, 1153, 1150, 1148, 1145, 1143, 1140, 1138, 1135, 1133, 1130,
    1128, 1125, 1123, 1121, 1118, 1116, 1113, 1111, 1109, 1106, 1104, 1102, 1099, 1097, 1095, 1092,
    1090, 1088, 1086, 1083, 1081, 1079, 1077, 1074, 1072, 1070, 1068, 1066, 1064, 1061, 1059, 1057,
    1055, 1053, 1051, 1049, 1047, 1044, 1042, 1040, 1038, 1036, 1034, 1032, 1030, 1028, 1026, 1024,
];

// about 2^15 / root(i / 512), by the nine leading bits i of a radicand, from 128 on
const INVERSE_ROOTS: [u16; 384] = [
    65408, 65155, 64905, 64658, 64414, 64172, 63933, 63696, 63463, 63232, 63003, 62777, 62553,
    62331, 62112, 61895, 61681, 61469, 61258, 61050, 60845, 60641, 60439, 60239, 60041, 59845,
    59651, 59459, 59269, 59081, 58894, 58709, 58526, 58344, 58165, 57986, 57810, 57635, 57462,
    57290, 57120, 56951, 56784, 56618, 56453, 56291, 56129, 55969, 55810, 55653, 55497, 55342,
    55188, 55036, 54885, 54735, 54587, 54439, 54293, 54148, 54004, 53862, 53720, 53580, 53440,
    53302, 53165, 53029, 52894, 52760, 52627, 52494, 52363, 52233, 52104, 51976, 51849, 51722,
    51597, 51473, 51349, 51226, 51104, 50984, 50863, 50744, 50626, 50508, 50391, 50275, 50160,
    50046, 49932, 49819, 49707, 49596, 49485, 49376, 49266, 49158, 49050, 48943, 48837, 48731,
    48627, 48522, 48419, 48316, 48214, 48112, 48011, 47911, 47811, 47712, 47613, 47516, 47418,
    47322, 47225, 47130, 47035, 46941, 46847, 46754, 46661, 46569, 46477, 46386, 46296, 46206,
    46116, 46027, 45939, 45851, 45764, 45677, 45590, 45504, 45419, 45334, 45249, 45165, 45082,
    44999, 44916, 44834, 44752, 44671, 44590, 44510, 44430, 44350, 44271, 44192, 44114, 44036,
    43959, 43882, 43805, 43729, 43653, 43577, 43502, 43428, 43353, 43279, 43206, 43133, 43060,
    42987, 42915, 42844, 42772, 42701, 42631, 42560, 42490, 42421, 42352, 42283, 42214, 42146,
    42078, 42010, 41943, 41876, 41809, 41743, 41677, 41611, 41546, 41481, 41416, 41352, 41288,
    41224, 41160, 41097, 41034, 40971, 40909, 40847, 40785, 40723, 40662, 40601, 40540, 40480,
    40420, 40360, 40300, 40241, 40182, 40123, 40064, 40006, 39948, 39890, 39832, 39775, 39718,
    39661, 39604, 39548, 39492, 39436, 39380, 39325, 39269, 39215, 39160, 39105, 39051, 38997,
    38943, 38890, 38836, 38783, 38730, 38677, 38625, 38572, 38520, 38469, 38417, 38365, 38314,
    38263, 38212, 38162, 38111, 38061, 38011, 37961, 37911, 37862, 37813, 37764, 37715, 37666,
    37617, 37569, 37521, 37473, 37425, 37378, 37330, 37283, 37236, 37189, 37142, 37096, 37050,
    37003, 36957, 36912, 36866, 36820, 36775, 36730, 36685, 36640, 36596, 36551, 36507, 36463,
    36419, 36375, 36331, 36287, 36244, 36201, 36158, 36115, 36072, 36029, 35987, 35945, 35903,
    35861, 35819, 35777, 35735, 35694, 35653, 35612, 35571, 35530, 35489, 35448, 35408, 35368,
    35327, 35287, 35247, 35208, 35168, 35129, 35089, 35050, 35011, 34972, 34933, 34894, 34856,
    34817, 34779, 34741, 34703, 34665, 34627, 34589, 34552, 34514, 34477, 34440, 34403, 34366,
    34329, 34292, 34255, 34219, 34183, 34146, 34110, 34074, 34038, 34002, 33967, 33931, 33896,
    33860, 33825, 33790, 33755, 33720, 33685, 33650, 33616, 33581, 33547, 33513, 33478, 33444,
    33410, 33377, 33343, 33309, 33276, 33242, 33209, 33175, 33142, 33109, 33076, 33043, 33011,
    32978, 32945, 32913, 32881, 32848, 32816, 32784,
];

/// About `2^128 / d - 2^64`, for a `d` with its top bit set, by three steps of Newton (Moller and
/// Granlund, Improved division by invariant integers).
#[inline(always)]
fn near_inverse(d: u64) -> u64 {
    let odd = d & 1;
    let head = (d >> 24).wrapping_add(1);
    let half = (d >> 1).wrapping_add(odd);
    let first = INVERSES[((d >> 55) & 0xff) as usize] as u64;
    let second = (first << 11)
        .wrapping_sub(first.wrapping_mul(first).wrapping_mul(head) >> 40)
        .wrapping_sub(1);
    let miss = (1u64 << 60).wrapping_sub(second.wrapping_mul(head));
    let third = (second << 13).wrapping_add(second.wrapping_mul(miss) >> 47);
    let miss = ((third >> 1) & odd.wrapping_neg()).wrapping_sub(third.wrapping_mul(half));
    let fourth = (third << 31).wrapping_add(high(third as u128 * miss as u128) >> 1);
    let product = (fourth as u128 * d as u128).wrapping_add(d as u128);
    fourth.wrapping_sub(high(product)).wrapping_sub(d)
}

#[inline(always)]
fn high(n: u128) -> u64 {
    (n >> 64) as u64
}

#[inline(always)]
fn low(n: u128) -> u64 {
    (n & 0xffff_ffff_ffff_ffff) as u64
}

/// About `n / d`, where that fits 64 bits.
#[inline(always)]
pub fn near_quotient(n: u128, d: u64) -> u64 {
    let shift = d.leading_zeros() & 63;
    let d = d << shift;
    let n = n << shift;
    let product = (near_inverse(d) as u128 * high(n) as u128).wrapping_add(n);
    let near = high(product).wrapping_add(1);
    let left = low(n).wrapping_sub(near.wrapping_mul(d));
    if left > low(product) {
        settled(near.wrapping_sub(1), left.wrapping_add(d), d)
    } else {
        settled(near, left, d)
    }
}

#[inline(always)]
fn settled(near: u64, left: u64, d: u64) -> u64 {
    if d <= left {
        near.wrapping_add(1)
    } else {
        near
    }
}

// the inverse root of the radicand `x` of 64 bits, times 2^31
#[inline(always)]
fn near_inverse_root(x: u64) -> u64 {
    let place = (x >> 55).wrapping_sub(128) as usize;
    let first = match INVERSE_ROOTS.get(place) {
        Some(first) => *first as u64,
        None => 0,
    };
    let miss = (1u64 << 62)
        .wrapping_sub(first.wrapping_mul(first).wrapping_mul(x >> 32))
        .cast_signed();
    let step = (first.cast_signed().wrapping_mul(miss >> 31) >> 16).cast_unsigned();
    (first << 16).wrapping_add(step)
}

// the root of the radicand `x` of 64 bits, times 2^32 and within one
#[inline(always)]
fn near_root_of(x: u64, inverse: u64) -> u64 {
    let first = (x >> 32).wrapping_mul(inverse) >> 31;
    let left = x.wrapping_sub(first.wrapping_mul(first)).cast_signed();
    let step = (left >> 16).wrapping_mul((inverse >> 16).cast_signed()) >> 32;
    first.wrapping_add(step.cast_unsigned())
}

/// About the root of `a`.
#[inline(always)]
pub fn near_root_word(a: u64) -> u64 {
    let shift = a.leading_zeros() & 62;
    let x = a << shift;
    near_root_of(x, near_inverse_root(x)) >> (shift / 2)
}

// the root of the radicand `x` of 128 bits, from a near one
#[inline(always)]
fn nearer_root(x: u128, near: u64, inverse: u64) -> u64 {
    let left = x.wrapping_sub(near as u128 * near as u128).cast_signed();
    let step = low((left >> 54).cast_unsigned())
        .cast_signed()
        .wrapping_mul((inverse >> 14).cast_signed())
        >> 28;
    near.wrapping_add(step.cast_unsigned())
}

/// About the root of `a`.
#[inline(always)]
pub fn near_root(a: u128) -> u64 {
    let shift = a.leading_zeros() & 126;
    let x = a << shift;
    let top = high(x);
    let inverse = near_inverse_root(top);
    let first = near_root_of(top, inverse) << 32;
    let second = nearer_root(x, first, inverse);
    nearer_root(x, second, inverse) >> (shift / 2)
}
