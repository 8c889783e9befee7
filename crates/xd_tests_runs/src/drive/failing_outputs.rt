// One run whose output fails at one call or another. The words are those of `script`; after the news stand the calls that
// the hub took. All of it was made by a model of the rules that was written apart from them.
const RUNS: &str = "\
     the first write ~ 2,0,8,-,0 ~ R0 C0:a|b|c R1 C1:a|b|c G0,e R2 C2:a|b|c T1,1,p,5 F1 T2,2,p,5 F2 ~ s0,0 s1,1 k0 k1 ~ s0,0 s1,1 R0 C0:a|b|c R1 C1= r0,0 r1,1 r0,2 h0 h1 k0 k1 o:out ~ 3 ~ \n\
     a write in the middle ~ 2,0,8,-,4 ~ R0 C0:a|b|c R1 C1:a|b|c G0,e R2 C2:a|b|c T1,1,p,5 F1 T2,2,p,5 F2 ~ s0,0 s1,1 r0,0 r1,1 r0,2 h0 h1 k0 s2,0 r2,2 h2 k1 k2 ~ s0,0 s1,1 R0 C0:a|b|c R1 C1= r0,0 r1,1 r0,2 h0 h1 G0,e k0 s2,0 R2 C2= r2,2 h2 D1,1,p,5 k1 k2 o:out ~ 3 ~ 3 tests on 2 workers, load/[gw0] node down: Not properly terminated/[gw0] CRASHED a/replacing crashed worker gw0/\n\
     the last write ~ 2,0,8,-,8 ~ R0 C0:a|b|c R1 C1:a|b|c G0,e R2 C2:a|b|c T1,1,p,5 F1 T2,2,p,5 F2 ~ s0,0 s1,1 r0,0 r1,1 r0,2 h0 h1 k0 s2,0 r2,2 h2 ~ s0,0 s1,1 R0 C0:a|b|c R1 C1= r0,0 r1,1 r0,2 h0 h1 G0,e k0 s2,0 R2 C2= r2,2 h2 D1,1,p,5 F1 D2,2,p,5 F2 o:out ~ 3 ~ 3 tests on 2 workers, load/[gw0] node down: Not properly terminated/[gw0] CRASHED a/replacing crashed worker gw0/[gw1] PASSED b/[gw2] PASSED c/\n\
     a flush ~ 2,0,8,-,3 ~ R0 C0:a|b|c R1 C1:a|b|c G0,e R2 C2:a|b|c T1,1,p,5 F1 T2,2,p,5 F2 ~ s0,0 s1,1 r0,0 r1,1 r0,2 h0 h1 k0 k1 ~ s0,0 s1,1 R0 C0:a|b|c R1 C1= r0,0 r1,1 r0,2 h0 h1 G0,e k0 s2,0 k1 k2 o:out ~ 3 ~ 3 tests on 2 workers, load/[gw0] node down: Not properly terminated/[gw0] CRASHED a/replacing crashed worker gw0/\n\
     the last flush ~ 2,0,8,-,9 ~ R0 C0:a|b|c R1 C1:a|b|c G0,e R2 C2:a|b|c T1,1,p,5 F1 T2,2,p,5 F2 ~ s0,0 s1,1 r0,0 r1,1 r0,2 h0 h1 k0 s2,0 r2,2 h2 ~ s0,0 s1,1 R0 C0:a|b|c R1 C1= r0,0 r1,1 r0,2 h0 h1 G0,e k0 s2,0 R2 C2= r2,2 h2 D1,1,p,5 F1 D2,2,p,5 F2 o:out ~ 3 ~ 3 tests on 2 workers, load/[gw0] node down: Not properly terminated/[gw0] CRASHED a/replacing crashed worker gw0/[gw1] PASSED b/[gw2] PASSED c/==== [gw0] a ====/worker 'gw0' crashed while running 'a'/1 failed, 2 passed/\n\
     the close ~ 2,0,8,-,10 ~ R0 C0:a|b|c R1 C1:a|b|c G0,e R2 C2:a|b|c T1,1,p,5 F1 T2,2,p,5 F2 ~ s0,0 s1,1 r0,0 r1,1 r0,2 h0 h1 k0 s2,0 r2,2 h2 ~ s0,0 s1,1 R0 C0:a|b|c R1 C1= r0,0 r1,1 r0,2 h0 h1 G0,e k0 s2,0 R2 C2= r2,2 h2 D1,1,p,5 F1 D2,2,p,5 F2 o:out ~ 3 ~ 3 tests on 2 workers, load/[gw0] node down: Not properly terminated/[gw0] CRASHED a/replacing crashed worker gw0/[gw1] PASSED b/[gw2] PASSED c/==== [gw0] a ====/worker 'gw0' crashed while running 'a'/1 failed, 2 passed/";

pub(crate) fn runs() -> &'static str {
    RUNS
}
