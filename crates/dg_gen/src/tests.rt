//! The document as it stands on paper, and the ends of a long one.

use crate::generate;
use std::test::Fail;

/// The document with two asks.
const TWO_ASKS: &str = r#"scope G
module Gm {
  @G provides s0() : @Named("0") Int = 1
  @G provides s1(a: @Named("0") Int) : @Named("1") Int = a + 1
  @G provides s2(a: @Named("1") Int) : @Named("2") Int = a + 1
  @G provides s3(a: @Named("2") Int) : @Named("3") Int = a + 1
  @G provides s4(a: @Named("3") Int) : @Named("4") Int = a + 1
  @G provides s5(a: @Named("4") Int) : @Named("5") Int = a + 1
  @G provides s6(a: @Named("5") Int) : @Named("6") Int = a + 1
  @G provides s7(a: @Named("6") Int) : @Named("7") Int = a + 1
  @G provides s8(a: @Named("7") Int) : @Named("8") Int = a + 1
  @G provides s9(a: @Named("8") Int) : @Named("9") Int = a + 1
  @G provides s10(a: @Named("9") Int) : @Named("10") Int = a + 1
  @G provides s11(a: @Named("10") Int) : @Named("11") Int = a + 1
  @G provides s12(a: @Named("11") Int) : @Named("12") Int = a + 1
  @G provides s13(a: @Named("12") Int) : @Named("13") Int = a + 1
  @G provides s14(a: @Named("13") Int) : @Named("14") Int = a + 1
  @G provides s15(a: @Named("14") Int) : @Named("15") Int = a + 1
  @G provides s16(a: @Named("15") Int) : @Named("16") Int = a + 1
  @G provides s17(a: @Named("16") Int) : @Named("17") Int = a + 1
  @G provides s18(a: @Named("17") Int) : @Named("18") Int = a + 1
  @G provides s19(a: @Named("18") Int) : @Named("19") Int = a + 1
  @G provides s20(a: @Named("19") Int) : @Named("20") Int = a + 1
  @G provides s21(a: @Named("20") Int) : @Named("21") Int = a + 1
  @G provides s22(a: @Named("21") Int) : @Named("22") Int = a + 1
  @G provides s23(a: @Named("22") Int) : @Named("23") Int = a + 1
  @G provides s24(a: @Named("23") Int) : @Named("24") Int = a + 1
  @G provides s25(a: @Named("24") Int) : @Named("25") Int = a + 1
  @G provides s26(a: @Named("25") Int) : @Named("26") Int = a + 1
  @G provides s27(a: @Named("26") Int) : @Named("27") Int = a + 1
  @G provides s28(a: @Named("27") Int) : @Named("28") Int = a + 1
  @G provides s29(a: @Named("28") Int) : @Named("29") Int = a + 1
  @G provides s30(a: @Named("29") Int) : @Named("30") Int = a + 1
  @G provides s31(a: @Named("30") Int) : @Named("31") Int = a + 1
  @G provides s32(a: @Named("31") Int) : @Named("32") Int = a + 1
  @G provides s33(a: @Named("32") Int) : @Named("33") Int = a + 1
  @G provides s34(a: @Named("33") Int) : @Named("34") Int = a + 1
  @G provides s35(a: @Named("34") Int) : @Named("35") Int = a + 1
  @G provides s36(a: @Named("35") Int) : @Named("36") Int = a + 1
  @G provides s37(a: @Named("36") Int) : @Named("37") Int = a + 1
  @G provides s38(a: @Named("37") Int) : @Named("38") Int = a + 1
  @G provides s39(a: @Named("38") Int) : @Named("39") Int = a + 1
  @G provides s40(a: @Named("39") Int) : @Named("40") Int = a + 1
  @G provides s41(a: @Named("40") Int) : @Named("41") Int = a + 1
  @G provides s42(a: @Named("41") Int) : @Named("42") Int = a + 1
  @G provides s43(a: @Named("42") Int) : @Named("43") Int = a + 1
  @G provides s44(a: @Named("43") Int) : @Named("44") Int = a + 1
  @G provides s45(a: @Named("44") Int) : @Named("45") Int = a + 1
  @G provides s46(a: @Named("45") Int) : @Named("46") Int = a + 1
  @G provides s47(a: @Named("46") Int) : @Named("47") Int = a + 1
  @G provides s48(a: @Named("47") Int) : @Named("48") Int = a + 1
  @G provides s49(a: @Named("48") Int) : @Named("49") Int = a + 1
  @G provides s50(a: @Named("49") Int) : @Named("50") Int = a + 1
  @G provides s51(a: @Named("50") Int) : @Named("51") Int = a + 1
  @G provides s52(a: @Named("51") Int) : @Named("52") Int = a + 1
  @G provides s53(a: @Named("52") Int) : @Named("53") Int = a + 1
  @G provides s54(a: @Named("53") Int) : @Named("54") Int = a + 1
  @G provides s55(a: @Named("54") Int) : @Named("55") Int = a + 1
  @G provides s56(a: @Named("55") Int) : @Named("56") Int = a + 1
  @G provides s57(a: @Named("56") Int) : @Named("57") Int = a + 1
  @G provides s58(a: @Named("57") Int) : @Named("58") Int = a + 1
  @G provides s59(a: @Named("58") Int) : @Named("59") Int = a + 1
  @G provides s60(a: @Named("59") Int) : @Named("60") Int = a + 1
  @G provides s61(a: @Named("60") Int) : @Named("61") Int = a + 1
  @G provides s62(a: @Named("61") Int) : @Named("62") Int = a + 1
  @G provides s63(a: @Named("62") Int) : @Named("63") Int = a + 1
  produces q0(a: @Named("63") Int) : @Named("q0") Int = a + 1
  produces q1() : @Named("q1") Int = fail("q")
  produces q2(a: @Named("q0") Int, b: @Named("q1") Produced<Int>) : @Named("q2") Int = if ok(b) then a else a + 1
}
@G component Root modules Gm {
  entry e0 : @Named("63") Int
  entry e1 : @Named("q2") Int
  entry e2 : @Named("q1") Int
}
open i0 : Root
open i1 : Root
open i2 : Root
open i3 : Root
open i4 : Root
open i5 : Root
open i6 : Root
open i7 : Root
open i8 : Root
open i9 : Root
open i10 : Root
open i11 : Root
open i12 : Root
open i13 : Root
open i14 : Root
open i15 : Root
ask i0.e0
ask i1.e1
"#;

#[test]
fn two_asks_in_full(rt: HostRuntime) -> Result<(), Fail> {
    let text = generate(rt.alloc(), 2)?;
    assert_eq!(rt; text.as_slice(), TWO_ASKS.as_bytes());
    Ok(())
}

/// 91 lines stand before the asks, and ask 20,000 takes instance 19,999 mod 16 and entry point
/// 19,999 mod 3.
#[test]
fn the_longest_document(rt: HostRuntime) -> Result<(), Fail> {
    let text = generate(rt.alloc(), 20_000)?;
    assert_eq!(rt; text.iter().filter(|b| **b == b'\n').count(), 20_091);
    assert!(rt; text.ends_with(b"\nask i14.e0\nask i15.e1\n"));
    Ok(())
}
