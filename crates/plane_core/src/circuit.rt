//! The S-box as a circuit of gates, on all bytes at once.
//!
//! It is the circuit of Boyar, Peralta and Calik with 113 gates (SLP_AES_113 of Peralta's circuits)
//! with its names: x0 to x7 are the bits of a byte and s0 to s7 those of its image, the highest
//! first. The four inverters at its end are left out, so the sum of each byte with 63 in
//! hexadecimal comes out.
//!
//! The middle is that of Boyar and Peralta's "A depth-16 circuit for the AES S-box" (2011) with its
//! names, m20 to m40. It has a gate more, but no more than four of them wait for each other, where
//! nine did.

ghost use Rattle.std.specs.Prelude.{◌≡◌, ℕ, ◌∷◌, [], bit_xor};
ghost use Rattle.cipher_spec.specs.Aes.{sub_byte};
ghost use Rattle.plane_core.specs.Bits.{byte_of};
ghost use Rattle.plane_core.specs.Circuit.{circuit_head, inner, tail};

use crate::plane::Plane;
use crate::planes::Planes;

/// What goes into the circuit's middle, and what comes out of it.
#[derive(Clone, Copy)]
struct Waist<P> {
    a: P,
    b: P,
    c: P,
    d: P,
}

/// The first 46 gates: t21 to t24.
#[inline(always)]
#[tactic(auto, unfolding(crate::specs::Circuit::circuit_head))]
fn head<P: Plane>(x: &Planes<P>) -> Waist<P>
    ensures { (j b : ℕ) → (P.bit result.a j b ∷ P.bit result.b j b ∷ P.bit result.c j b ∷ P.bit
        result.d j b ∷ [])
        ≡ circuit_head (P.bit x.now.b7 j b) (P.bit x.now.b6 j b) (P.bit x.now.b5 j b)
        (P.bit x.now.b4 j b)
        (P.bit x.now.b3 j b) (P.bit x.now.b2 j b) (P.bit x.now.b1 j b) (P.bit x.now.b0 j b) }
{
    let x0 = x.b7;
    let x1 = x.b6;
    let x2 = x.b5;
    let x3 = x.b4;
    let x4 = x.b3;
    let x5 = x.b2;
    let x6 = x.b1;
    let x7 = x.b0;
    let y14 = x3.xor(x5);
    let y13 = x0.xor(x6);
    let y9 = x0.xor(x3);
    let y8 = x0.xor(x5);
    let t0 = x1.xor(x2);
    let y1 = t0.xor(x7);
    let y4 = y1.xor(x3);
    let y12 = y13.xor(y14);
    let y2 = y1.xor(x0);
    let y5 = y1.xor(x6);
    let y3 = y5.xor(y8);
    let t1 = x4.xor(y12);
    let y15 = t1.xor(x5);
    let y20 = t1.xor(x1);
    let y6 = y15.xor(x7);
    let y10 = y15.xor(t0);
    let y11 = y20.xor(y9);
    let y7 = x7.xor(y11);
    let y17 = y10.xor(y11);
    let y19 = y10.xor(y8);
    let y16 = t0.xor(y11);
    let y21 = y13.xor(y16);
    let y18 = x0.xor(y16);
    let t2 = y12.and(y15);
    let t3 = y3.and(y6);
    let t4 = t3.xor(t2);
    let t5 = y4.and(x7);
    let t6 = t5.xor(t2);
    let t7 = y13.and(y16);
    let t8 = y5.and(y1);
    let t9 = t8.xor(t7);
    let t10 = y2.and(y7);
    let t11 = t10.xor(t7);
    let t12 = y9.and(y11);
    let t13 = y14.and(y17);
    let t14 = t13.xor(t12);
    let t15 = y8.and(y10);
    let t16 = t15.xor(t12);
    let t17 = t4.xor(y20);
    let t18 = t6.xor(t16);
    let t19 = t9.xor(t14);
    let t20 = t11.xor(t16);
    let t21 = t17.xor(t14);
    let t22 = t18.xor(y19);
    let t23 = t19.xor(y21);
    let t24 = t20.xor(y18);
    Waist {
        a: t21,
        b: t22,
        c: t23,
        d: t24,
    }
}

/// The 17 gates in the middle. They take t21 to t24, here m20 to m23, and make t29, t33, t37 and
/// t40, here m37, m39, m40 and m38.
#[inline(always)]
#[tactic(auto, unfolding(crate::specs::Circuit::inner))]
fn inner<P: Plane>(n: &Waist<P>) -> Waist<P>
    ensures { (j b : ℕ) → (P.bit result.a j b ∷ P.bit result.b j b ∷ P.bit result.c j b ∷ P.bit
        result.d j b ∷ [])
        ≡ inner (P.bit n.now.a j b) (P.bit n.now.b j b) (P.bit n.now.c j b) (P.bit n.now.d j b) }
{
    let m20 = n.a;
    let m21 = n.b;
    let m22 = n.c;
    let m23 = n.d;
    let m24 = m22.xor(m23);
    let m25 = m20.and(m22);
    let m26 = m21.xor(m25);
    let m27 = m20.xor(m21);
    let m28 = m23.xor(m25);
    let m29 = m28.and(m27);
    let m37 = m21.xor(m29);
    let m30 = m26.and(m24);
    let m39 = m23.xor(m30);
    let m31 = m20.and(m23);
    let m32 = m27.and(m31);
    let m33 = m27.xor(m25);
    let m38 = m32.xor(m33);
    let m34 = m21.and(m22);
    let m35 = m24.and(m34);
    let m36 = m24.xor(m25);
    let m40 = m35.xor(m36);
    Waist {
        a: m37,
        b: m39,
        c: m40,
        d: m38,
    }
}

/// The last 51 gates, and those of the first 46 that they need.
#[inline(always)]
#[tactic(auto, unfolding(crate::specs::Circuit::tail))]
fn tail<P: Plane>(x: &Planes<P>, n: &Waist<P>) -> Planes<P>
    ensures { (j b : ℕ) → (P.bit result.b7 j b ∷ P.bit result.b6 j b ∷ P.bit result.b5 j b ∷ P.bit
        result.b4 j b ∷ P.bit result.b3 j b ∷ P.bit result.b2 j b ∷ P.bit result.b1 j b ∷ P.bit
        result.b0 j b ∷ [])
        ≡ tail (P.bit x.now.b7 j b) (P.bit x.now.b6 j b) (P.bit x.now.b5 j b) (P.bit x.now.b4 j b)
        (P.bit x.now.b3 j b) (P.bit x.now.b2 j b) (P.bit x.now.b1 j b) (P.bit x.now.b0 j b)
        (P.bit n.now.a j b) (P.bit n.now.b j b) (P.bit n.now.c j b) (P.bit n.now.d j b) }
{
    let x0 = x.b7;
    let x1 = x.b6;
    let x2 = x.b5;
    let x3 = x.b4;
    let x4 = x.b3;
    let x5 = x.b2;
    let x6 = x.b1;
    let x7 = x.b0;
    let t29 = n.a;
    let t33 = n.b;
    let t37 = n.c;
    let t40 = n.d;
    let y14 = x3.xor(x5);
    let y13 = x0.xor(x6);
    let y9 = x0.xor(x3);
    let y8 = x0.xor(x5);
    let t0 = x1.xor(x2);
    let y1 = t0.xor(x7);
    let y4 = y1.xor(x3);
    let y12 = y13.xor(y14);
    let y2 = y1.xor(x0);
    let y5 = y1.xor(x6);
    let y3 = y5.xor(y8);
    let t1 = x4.xor(y12);
    let y15 = t1.xor(x5);
    let y20 = t1.xor(x1);
    let y6 = y15.xor(x7);
    let y10 = y15.xor(t0);
    let y11 = y20.xor(y9);
    let y7 = x7.xor(y11);
    let y17 = y10.xor(y11);
    let y16 = t0.xor(y11);
    let t41 = t40.xor(t37);
    let t42 = t29.xor(t33);
    let t43 = t29.xor(t40);
    let t44 = t33.xor(t37);
    let t45 = t42.xor(t41);
    let z0 = t44.and(y15);
    let z1 = t37.and(y6);
    let z2 = t33.and(x7);
    let z3 = t43.and(y16);
    let z4 = t40.and(y1);
    let z5 = t29.and(y7);
    let z6 = t42.and(y11);
    let z7 = t45.and(y17);
    let z8 = t41.and(y10);
    let z9 = t44.and(y12);
    let z10 = t37.and(y3);
    let z11 = t33.and(y4);
    let z12 = t43.and(y13);
    let z13 = t40.and(y5);
    let z14 = t29.and(y2);
    let z15 = t42.and(y9);
    let z16 = t45.and(y14);
    let z17 = t41.and(y8);
    let tc1 = z15.xor(z16);
    let tc2 = z10.xor(tc1);
    let tc3 = z9.xor(tc2);
    let tc4 = z0.xor(z2);
    let tc5 = z1.xor(z0);
    let tc6 = z3.xor(z4);
    let tc7 = z12.xor(tc4);
    let tc8 = z7.xor(tc6);
    let tc9 = z8.xor(tc7);
    let tc10 = tc8.xor(tc9);
    let tc11 = tc6.xor(tc5);
    let tc12 = z3.xor(z5);
    let tc13 = z13.xor(tc1);
    let tc14 = tc4.xor(tc12);
    let s3 = tc3.xor(tc11);
    let tc16 = z6.xor(tc8);
    let tc17 = z14.xor(tc10);
    let tc18 = tc13.xor(tc14);
    let s7 = z12.xor(tc18);
    let tc20 = z15.xor(tc16);
    let tc21 = tc2.xor(z11);
    let s0 = tc3.xor(tc16);
    let s6 = tc10.xor(tc18);
    let s4 = tc14.xor(s3);
    let s1 = s3.xor(tc16);
    let tc26 = tc17.xor(tc20);
    let s2 = tc26.xor(z17);
    let s5 = tc21.xor(tc17);
    Planes {
        b0: s7,
        b1: s6,
        b2: s5,
        b3: s4,
        b4: s3,
        b5: s2,
        b6: s1,
        b7: s0,
    }
}

/// The S-box on each byte (FIPS 197, 5.1.1), but for the constant of its affine transformation.
#[inline(always)]
pub fn sub_bytes<P: Plane>(x: &Planes<P>) -> Planes<P>
    ensures { (j b : ℕ) → byte_of P.bit result j b ≡ bit_xor
        (sub_byte (byte_of P.bit x.now j b)) 0x63 }
{
    tail(x, &inner(&head(x)))
}
