// Written by bench/eval_vectors.py, which says what a line means: 2485 cases.
pub const NARROW: &str = "\
u B0 B0 Bff B0 B8 B8 B0 B0 - - H0 W0 D0 Q0 H0 W0 D0 Q0 - - - -\n\
u B1 Bff Bfe B1 B7 B0 B1 B80 - - H1 W1 D1 Q1 H1 W1 D1 Q1 - - - -\n\
u Bff B1 B0 B1 B0 B0 B8 Bff - - Hff Wff Dff Qff Hffff Wffffffff Dffffffffffffffff Qffffffffffffffffffffffffffffffff - \
    - - -\n\
u B80 B80 B7f B80 B0 B7 B1 B1 - - H80 W80 D80 Q80 Hff80 Wffffff80 Dffffffffffffff80 Qffffffffffffffffffffffffffffff80 \
    - - - -\n\
u B7f B81 B80 B7f B1 B0 B7 Bfe - - H7f W7f D7f Q7f H7f W7f D7f Q7f - - - -\n\
u B22 Bde Bdd B22 B2 B1 B2 B44 - - H22 W22 D22 Q22 H22 W22 D22 Q22 - - - -\n\
u B48 Bb8 Bb7 B48 B1 B3 B2 B12 - - H48 W48 D48 Q48 H48 W48 D48 Q48 - - - -\n\
b B0 B0 B0 B0 B0 B0 B0 B0 B0 B0 B0 B0 B0 B0 !z !z !z !z B0,B0 B0,B0 B0,B0 B0,B0 H0 B1 B0 B0 B1 B0 B1 B0 B1 B0 B1\n\
b B0 Bff Bff B1 B0 B0 Bff Bff Bff B0 B0 Bff B0 B0 B0 B0 B0 B0 Bff,B0 Bff,B0 B1,B1 B1,B0 Hff00 B0 B1 B0 B1 B1 B0 B1 B0 \
    B0 B1\n\
b B1 Bff B0 B2 Bff B1 Bff Bfe Bff B1 B1 Bff B0 Bff B0 B1 Bff B0 B0,B1 B0,B0 B2,B1 B2,B0 Hff01 B0 B1 B0 B1 B1 B0 B1 B0 \
    B0 B1\n\
b Bff Bff Bfe B0 B1 Bff Bff B0 Bff Bff Bff Bff Bfe B0 B1 B0 B1 B0 Bfe,B1 Bfe,B0 B0,B0 B0,B0 Hffff B1 B0 B0 B1 B0 B1 \
    B0 B1 B0 B1\n\
b Bff B1 B0 Bfe Bff B1 Bff Bfe Bff B1 B1 Bff B0 Bff Bff B0 Bff B0 B0,B1 B0,B0 Bfe,B0 Bfe,B0 H1ff B0 B1 B1 B0 B0 B1 B0 \
    B1 B1 B0\n\
b B80 Bff B7f B81 B80 B80 Bff B7f B80 Bff B80 Bff B7f B0 B0 B80 !o B0 B7f,B1 B7f,B1 B81,B1 B81,B0 Hff80 B0 B1 B1 B0 \
    B0 B1 B1 B0 B0 B1\n\
b B80 B1 B81 B7f B80 B0 B81 B81 B80 B1 B1 B80 B0 Bff B80 B0 B80 B0 B81,B0 B81,B0 B7f,B0 B7f,B1 H180 B0 B1 B1 B0 B0 B1 \
    B0 B1 B1 B0\n\
b B80 B80 B0 B0 B0 B80 B80 B0 B80 B80 B80 B80 B40 B40 B1 B0 B1 B0 B0,B1 B0,B1 B0,B0 B0,B0 H8080 B1 B0 B0 B1 B0 B1 B0 \
    B1 B0 B1\n\
b B7f B1 B80 B7e B7f B1 B7f B7e B1 B7f B1 B7f B0 B0 B7f B0 B7f B0 B80,B0 B80,B1 B7e,B0 B7e,B0 H17f B0 B1 B0 B1 B1 B0 \
    B0 B1 B1 B0\n\
b B7f B7f Bfe B0 B1 B7f B7f B0 B7f B7f B7f B7f B3f B3f B1 B0 B1 B0 Bfe,B0 Bfe,B1 B0,B0 B0,B0 H7f7f B1 B0 B0 B1 B0 B1 \
    B0 B1 B0 B1\n\
b B80 B7f Bff B1 B80 B0 Bff Bff B80 B7f B7f B80 B3f Bc0 B1 B1 Bff Bff Bff,B0 Bff,B0 B1,B0 B1,B1 H7f80 B0 B1 B1 B0 B0 \
    B1 B0 B1 B1 B0\n\
b B7f B80 Bff Bff B80 B0 Bff Bff B80 B7f B7f B80 B3f Bc0 B0 B7f B0 B7f Bff,B0 Bff,B0 Bff,B1 Bff,B1 H807f B0 B1 B0 B1 \
    B1 B0 B1 B0 B0 B1\n\
b B22 B48 B6a Bda B90 B0 B6a B6a B22 B48 B22 B48 B9 B9 B0 B22 B0 B22 B6a,B0 B6a,B0 Bda,B1 Bda,B0 H4822 B0 B1 B1 B0 B0 \
    B1 B1 B0 B0 B1\n\
b B48 B22 B6a B26 B90 B0 B6a B6a B22 B48 B22 B48 B9 B9 B2 B4 B2 B4 B6a,B0 B6a,B0 B26,B0 B26,B0 H2248 B0 B1 B0 B1 B1 \
    B0 B0 B1 B1 B0\n\
b B22 B0 B22 B22 B0 B0 B22 B22 B0 B22 B0 B22 B0 B0 !z !z !z !z B22,B0 B22,B0 B22,B0 B22,B0 H22 B0 B1 B0 B1 B1 B0 B0 \
    B1 B1 B0\n\
b B22 B3 B25 B1f B66 B2 B23 B21 B3 B22 B3 B22 B0 B0 Bb B1 Bb B1 B25,B0 B25,B0 B1f,B0 B1f,B0 H322 B0 B1 B0 B1 B1 B0 B0 \
    B1 B1 B0\n\
b B22 Bfe B20 B24 Bbc B22 Bfe Bdc Bfe B22 B22 Bfe B21 Bff B0 B22 Bef B0 B20,B1 B20,B0 B24,B1 B24,B0 Hfe22 B0 B1 B0 B1 \
    B1 B0 B1 B0 B0 B1\n\
s B1 B0 B1 B1 B1 B1 B1\n\
s B1 B1 B2 B0 B0 B2 B80\n\
s B1 B7 B80 B0 B0 B80 B2\n\
s B1 B8 B1 B1 B1 B1 B1\n\
s B1 B9 B2 B0 B0 B2 B80\n\
s B1 Bff B80 B0 B0 B80 B2\n\
s B1 Q80000000000000000000000000000005 B20 B0 B0 B20 B8\n\
s Bff B0 Bff Bff Bff Bff Bff\n\
s Bff B1 Bfe B7f Bff Bff Bff\n\
s Bff B7 B80 B1 Bff Bff Bff\n\
s Bff B8 Bff Bff Bff Bff Bff\n\
s Bff B9 Bfe B7f Bff Bff Bff\n\
s Bff Bff B80 B1 Bff Bff Bff\n\
s Bff Q80000000000000000000000000000005 Be0 B7 Bff Bff Bff\n\
s B80 B0 B80 B80 B80 B80 B80\n\
s B80 B1 B0 B40 Bc0 B1 B40\n\
s B80 B7 B0 B1 Bff B40 B1\n\
s B80 B8 B80 B80 B80 B80 B80\n\
s B80 B9 B0 B40 Bc0 B1 B40\n\
s B80 Bff B0 B1 Bff B40 B1\n\
s B80 Q80000000000000000000000000000005 B0 B4 Bfc B10 B4\n\
s B22 B0 B22 B22 B22 B22 B22\n\
s B22 B1 B44 B11 B11 B44 B11\n\
s B22 B7 B0 B0 B0 B11 B44\n\
s B22 B8 B22 B22 B22 B22 B22\n\
s B22 B9 B44 B11 B11 B44 B11\n\
s B22 Bff B0 B0 B0 B11 B44\n\
s B22 Q80000000000000000000000000000005 B40 B1 B1 B44 B11\n\
t B0 B22 B48 B48\n\
t B80 B22 B48 B22\n\
t B1 B22 B48 B22\n\
t Q0 B22 B48 B48\n\
u H0 H0 Hffff H0 H10 H10 H0 H0 H0 B0,B0 - W0 D0 Q0 - W0 D0 Q0 B0 - - -\n\
u H1 Hffff Hfffe H1 Hf H0 H1 H8000 H100 B1,B0 - W1 D1 Q1 - W1 D1 Q1 B1 - - -\n\
u Hffff H1 H0 H1 H0 H0 H10 Hffff Hffff Bff,Bff - Wffff Dffff Qffff - Wffffffff Dffffffffffffffff \
    Qffffffffffffffffffffffffffffffff Bff - - -\n\
u H8000 H8000 H7fff H8000 H0 Hf H1 H1 H80 B0,B80 - W8000 D8000 Q8000 - Wffff8000 Dffffffffffff8000 \
    Qffffffffffffffffffffffffffff8000 B0 - - -\n\
u H7fff H8001 H8000 H7fff H1 H0 Hf Hfffe Hff7f Bff,B7f - W7fff D7fff Q7fff - W7fff D7fff Q7fff Bff - - -\n\
u Hd8f1 H270f H270e H270f H0 H0 H9 H8f1b Hf1d8 Bf1,Bd8 - Wd8f1 Dd8f1 Qd8f1 - Wffffd8f1 Dffffffffffffd8f1 \
    Qffffffffffffffffffffffffffffd8f1 Bf1 - - -\n\
u H66b0 H9950 H994f H66b0 H1 H4 H7 Hd66 Hb066 Bb0,B66 - W66b0 D66b0 Q66b0 - W66b0 D66b0 Q66b0 Bb0 - - -\n\
b H0 H0 H0 H0 H0 H0 H0 H0 H0 H0 H0 H0 H0 H0 !z !z !z !z H0,B0 H0,B0 H0,B0 H0,B0 W0 B1 B0 B0 B1 B0 B1 B0 B1 B0 B1\n\
b H0 Hffff Hffff H1 H0 H0 Hffff Hffff Hffff H0 H0 Hffff H0 H0 H0 H0 H0 H0 Hffff,B0 Hffff,B0 H1,B1 H1,B0 Wffff0000 B0 \
    B1 B0 B1 B1 B0 B1 B0 B0 B1\n\
b H1 Hffff H0 H2 Hffff H1 Hffff Hfffe Hffff H1 H1 Hffff H0 Hffff H0 H1 Hffff H0 H0,B1 H0,B0 H2,B1 H2,B0 Wffff0001 B0 \
    B1 B0 B1 B1 B0 B1 B0 B0 B1\n\
b Hffff Hffff Hfffe H0 H1 Hffff Hffff H0 Hffff Hffff Hffff Hffff Hfffe H0 H1 H0 H1 H0 Hfffe,B1 Hfffe,B0 H0,B0 H0,B0 \
    Wffffffff B1 B0 B0 B1 B0 B1 B0 B1 B0 B1\n\
b Hffff H1 H0 Hfffe Hffff H1 Hffff Hfffe Hffff H1 H1 Hffff H0 Hffff Hffff H0 Hffff H0 H0,B1 H0,B0 Hfffe,B0 Hfffe,B0 \
    W1ffff B0 B1 B1 B0 B0 B1 B0 B1 B1 B0\n\
b H8000 Hffff H7fff H8001 H8000 H8000 Hffff H7fff H8000 Hffff H8000 Hffff H7fff H0 H0 H8000 !o H0 H7fff,B1 H7fff,B1 \
    H8001,B1 H8001,B0 Wffff8000 B0 B1 B1 B0 B0 B1 B1 B0 B0 B1\n\
b H8000 H1 H8001 H7fff H8000 H0 H8001 H8001 H8000 H1 H1 H8000 H0 Hffff H8000 H0 H8000 H0 H8001,B0 H8001,B0 H7fff,B0 \
    H7fff,B1 W18000 B0 B1 B1 B0 B0 B1 B0 B1 B1 B0\n\
b H8000 H8000 H0 H0 H0 H8000 H8000 H0 H8000 H8000 H8000 H8000 H4000 H4000 H1 H0 H1 H0 H0,B1 H0,B1 H0,B0 H0,B0 \
    W80008000 B1 B0 B0 B1 B0 B1 B0 B1 B0 B1\n\
b H7fff H1 H8000 H7ffe H7fff H1 H7fff H7ffe H1 H7fff H1 H7fff H0 H0 H7fff H0 H7fff H0 H8000,B0 H8000,B1 H7ffe,B0 \
    H7ffe,B0 W17fff B0 B1 B0 B1 B1 B0 B0 B1 B1 B0\n\
b H7fff H7fff Hfffe H0 H1 H7fff H7fff H0 H7fff H7fff H7fff H7fff H3fff H3fff H1 H0 H1 H0 Hfffe,B0 Hfffe,B1 H0,B0 \
    H0,B0 W7fff7fff B1 B0 B0 B1 B0 B1 B0 B1 B0 B1\n\
b H8000 H7fff Hffff H1 H8000 H0 Hffff Hffff H8000 H7fff H7fff H8000 H3fff Hc000 H1 H1 Hffff Hffff Hffff,B0 Hffff,B0 \
    H1,B0 H1,B1 W7fff8000 B0 B1 B1 B0 B0 B1 B0 B1 B1 B0\n\
b H7fff H8000 Hffff Hffff H8000 H0 Hffff Hffff H8000 H7fff H7fff H8000 H3fff Hc000 H0 H7fff H0 H7fff Hffff,B0 \
    Hffff,B0 Hffff,B1 Hffff,B1 W80007fff B0 B1 B0 B1 B1 B0 B1 B0 B0 B1\n\
b Hd8f1 H66b0 H3fa1 H7241 H2bb0 H40b0 Hfef1 Hbe41 Hd8f1 H66b0 H66b0 Hd8f1 H5705 Hf055 H2 Hb91 H0 Hd8f1 H3fa1,B1 \
    H3fa1,B0 H7241,B0 H7241,B1 W66b0d8f1 B0 B1 B1 B0 B0 B1 B0 B1 B1 B0\n\
b H66b0 Hd8f1 H3fa1 H8dbf H2bb0 H40b0 Hfef1 Hbe41 Hd8f1 H66b0 H66b0 Hd8f1 H5705 Hf055 H0 H66b0 Hfffe H1892 H3fa1,B1 \
    H3fa1,B0 H8dbf,B1 H8dbf,B1 Wd8f166b0 B0 B1 B0 B1 B1 B0 B1 B0 B0 B1\n\
b Hd8f1 H0 Hd8f1 Hd8f1 H0 H0 Hd8f1 Hd8f1 Hd8f1 H0 H0 Hd8f1 H0 H0 !z !z !z !z Hd8f1,B0 Hd8f1,B0 Hd8f1,B0 Hd8f1,B0 \
    Wd8f1 B0 B1 B1 B0 B0 B1 B0 B1 B1 B0\n\
b Hd8f1 H3 Hd8f4 Hd8ee H8ad3 H1 Hd8f3 Hd8f2 Hd8f1 H3 H3 Hd8f1 H2 Hffff H4850 H1 Hf2fb H0 Hd8f4,B0 Hd8f4,B0 Hd8ee,B0 \
    Hd8ee,B0 W3d8f1 B0 B1 B1 B0 B0 B1 B0 B1 B1 B0\n\
b Hd8f1 Hfffe Hd8ef Hd8f3 H4e1e Hd8f0 Hffff H270f Hd8f1 Hfffe Hd8f1 Hfffe Hd8ef H0 H0 Hd8f1 H1387 Hffff Hd8ef,B1 \
    Hd8ef,B0 Hd8f3,B1 Hd8f3,B0 Wfffed8f1 B0 B1 B1 B0 B0 B1 B1 B0 B0 B1\n\
s H1 H0 H1 H1 H1 H1 H1\n\
s H1 H1 H2 H0 H0 H2 H8000\n\
s H1 Hf H8000 H0 H0 H8000 H2\n\
s H1 H10 H1 H1 H1 H1 H1\n\
s H1 H11 H2 H0 H0 H2 H8000\n\
s H1 Bff H8000 H0 H0 H8000 H2\n\
s H1 Q80000000000000000000000000000005 H20 H0 H0 H20 H800\n\
s Hffff H0 Hffff Hffff Hffff Hffff Hffff\n\
s Hffff H1 Hfffe H7fff Hffff Hffff Hffff\n\
s Hffff Hf H8000 H1 Hffff Hffff Hffff\n\
s Hffff H10 Hffff Hffff Hffff Hffff Hffff\n\
s Hffff H11 Hfffe H7fff Hffff Hffff Hffff\n\
s Hffff Bff H8000 H1 Hffff Hffff Hffff\n\
s Hffff Q80000000000000000000000000000005 Hffe0 H7ff Hffff Hffff Hffff\n\
s H8000 H0 H8000 H8000 H8000 H8000 H8000\n\
s H8000 H1 H0 H4000 Hc000 H1 H4000\n\
s H8000 Hf H0 H1 Hffff H4000 H1\n\
s H8000 H10 H8000 H8000 H8000 H8000 H8000\n\
s H8000 H11 H0 H4000 Hc000 H1 H4000\n\
s H8000 Bff H0 H1 Hffff H4000 H1\n\
s H8000 Q80000000000000000000000000000005 H0 H400 Hfc00 H10 H400\n\
s Hd8f1 H0 Hd8f1 Hd8f1 Hd8f1 Hd8f1 Hd8f1\n\
s Hd8f1 H1 Hb1e2 H6c78 Hec78 Hb1e3 Hec78\n\
s Hd8f1 Hf H8000 H1 Hffff Hec78 Hb1e3\n\
s Hd8f1 H10 Hd8f1 Hd8f1 Hd8f1 Hd8f1 Hd8f1\n\
s Hd8f1 H11 Hb1e2 H6c78 Hec78 Hb1e3 Hec78\n\
s Hd8f1 Bff H8000 H1 Hffff Hec78 Hb1e3\n\
s Hd8f1 Q80000000000000000000000000000005 H1e20 H6c7 Hfec7 H1e3b H8ec7\n\
t H0 Hd8f1 H66b0 H66b0\n\
t H8000 Hd8f1 H66b0 Hd8f1\n\
t B1 Hd8f1 H66b0 Hd8f1\n\
t Q0 Hd8f1 H66b0 H66b0\n\
u W0 W0 Wffffffff W0 W20 W20 W0 W0 W0 H0,H0 - - D0 Q0 - - D0 Q0 B0 H0 - -\n\
u W1 Wffffffff Wfffffffe W1 W1f W0 W1 W80000000 W1000000 H1,H0 - - D1 Q1 - - D1 Q1 B1 H1 - -\n\
u Wffffffff W1 W0 W1 W0 W0 W20 Wffffffff Wffffffff Hffff,Hffff - - Dffffffff Qffffffff - - Dffffffffffffffff \
    Qffffffffffffffffffffffffffffffff Bff Hffff - -\n\
u W80000000 W80000000 W7fffffff W80000000 W0 W1f W1 W1 W80 H0,H8000 - - D80000000 Q80000000 - - Dffffffff80000000 \
    Qffffffffffffffffffffffff80000000 B0 H0 - -\n\
u W7fffffff W80000001 W80000000 W7fffffff W1 W0 W1f Wfffffffe Wffffff7f Hffff,H7fff - - D7fffffff Q7fffffff - - \
    D7fffffff Q7fffffff Bff Hffff - -\n\
u Wc386bbc4 W3c79443c W3c79443b W3c79443c W0 W2 W10 W23dd61c3 Wc4bb86c3 Hbbc4,Hc386 - - Dc386bbc4 Qc386bbc4 - - \
    Dffffffffc386bbc4 Qffffffffffffffffffffffffc386bbc4 Bc4 Hbbc4 - -\n\
u W813e268 Wf7ec1d98 Wf7ec1d97 W813e268 W4 W3 Wb W1647c810 W68e21308 He268,H813 - - D813e268 Q813e268 - - D813e268 \
    Q813e268 B68 He268 - -\n\
b W0 W0 W0 W0 W0 W0 W0 W0 W0 W0 W0 W0 W0 W0 !z !z !z !z W0,B0 W0,B0 W0,B0 W0,B0 D0 B1 B0 B0 B1 B0 B1 B0 B1 B0 B1\n\
b W0 Wffffffff Wffffffff W1 W0 W0 Wffffffff Wffffffff Wffffffff W0 W0 Wffffffff W0 W0 W0 W0 W0 W0 Wffffffff,B0 \
    Wffffffff,B0 W1,B1 W1,B0 Dffffffff00000000 B0 B1 B0 B1 B1 B0 B1 B0 B0 B1\n\
b W1 Wffffffff W0 W2 Wffffffff W1 Wffffffff Wfffffffe Wffffffff W1 W1 Wffffffff W0 Wffffffff W0 W1 Wffffffff W0 W0,B1 \
    W0,B0 W2,B1 W2,B0 Dffffffff00000001 B0 B1 B0 B1 B1 B0 B1 B0 B0 B1\n\
b Wffffffff Wffffffff Wfffffffe W0 W1 Wffffffff Wffffffff W0 Wffffffff Wffffffff Wffffffff Wffffffff Wfffffffe W0 W1 \
    W0 W1 W0 Wfffffffe,B1 Wfffffffe,B0 W0,B0 W0,B0 Dffffffffffffffff B1 B0 B0 B1 B0 B1 B0 B1 B0 B1\n\
b Wffffffff W1 W0 Wfffffffe Wffffffff W1 Wffffffff Wfffffffe Wffffffff W1 W1 Wffffffff W0 Wffffffff Wffffffff W0 \
    Wffffffff W0 W0,B1 W0,B0 Wfffffffe,B0 Wfffffffe,B0 D1ffffffff B0 B1 B1 B0 B0 B1 B0 B1 B1 B0\n\
b W80000000 Wffffffff W7fffffff W80000001 W80000000 W80000000 Wffffffff W7fffffff W80000000 Wffffffff W80000000 \
    Wffffffff W7fffffff W0 W0 W80000000 !o W0 W7fffffff,B1 W7fffffff,B1 W80000001,B1 W80000001,B0 Dffffffff80000000 \
    B0 B1 B1 B0 B0 B1 B1 B0 B0 B1\n\
b W80000000 W1 W80000001 W7fffffff W80000000 W0 W80000001 W80000001 W80000000 W1 W1 W80000000 W0 Wffffffff W80000000 \
    W0 W80000000 W0 W80000001,B0 W80000001,B0 W7fffffff,B0 W7fffffff,B1 D180000000 B0 B1 B1 B0 B0 B1 B0 B1 B1 B0\n\
b W80000000 W80000000 W0 W0 W0 W80000000 W80000000 W0 W80000000 W80000000 W80000000 W80000000 W40000000 W40000000 W1 \
    W0 W1 W0 W0,B1 W0,B1 W0,B0 W0,B0 D8000000080000000 B1 B0 B0 B1 B0 B1 B0 B1 B0 B1\n\
b W7fffffff W1 W80000000 W7ffffffe W7fffffff W1 W7fffffff W7ffffffe W1 W7fffffff W1 W7fffffff W0 W0 W7fffffff W0 \
    W7fffffff W0 W80000000,B0 W80000000,B1 W7ffffffe,B0 W7ffffffe,B0 D17fffffff B0 B1 B0 B1 B1 B0 B0 B1 B1 B0\n\
b W7fffffff W7fffffff Wfffffffe W0 W1 W7fffffff W7fffffff W0 W7fffffff W7fffffff W7fffffff W7fffffff W3fffffff \
    W3fffffff W1 W0 W1 W0 Wfffffffe,B0 Wfffffffe,B1 W0,B0 W0,B0 D7fffffff7fffffff B1 B0 B0 B1 B0 B1 B0 B1 B0 B1\n\
b W80000000 W7fffffff Wffffffff W1 W80000000 W0 Wffffffff Wffffffff W80000000 W7fffffff W7fffffff W80000000 W3fffffff \
    Wc0000000 W1 W1 Wffffffff Wffffffff Wffffffff,B0 Wffffffff,B0 W1,B0 W1,B1 D7fffffff80000000 B0 B1 B1 B0 B0 B1 B0 \
    B1 B1 B0\n\
b W7fffffff W80000000 Wffffffff Wffffffff W80000000 W0 Wffffffff Wffffffff W80000000 W7fffffff W7fffffff W80000000 \
    W3fffffff Wc0000000 W0 W7fffffff W0 W7fffffff Wffffffff,B0 Wffffffff,B0 Wffffffff,B1 Wffffffff,B1 \
    D800000007fffffff B0 B1 B0 B1 B1 B0 B1 B0 B0 B1\n\
b Wc386bbc4 W813e268 Wcb9a9e2c Wbb72d95c W700b4fa0 W2a240 Wcb97fbec Wcb9559ac Wc386bbc4 W813e268 W813e268 Wc386bbc4 \
    W62b65ca Wfe178362 W18 W1a98204 Wfffffff9 Wfc11ec9c Wcb9a9e2c,B0 Wcb9a9e2c,B0 Wbb72d95c,B0 Wbb72d95c,B0 \
    D813e268c386bbc4 B0 B1 B1 B0 B0 B1 B0 B1 B1 B0\n\
b W813e268 Wc386bbc4 Wcb9a9e2c W448d26a4 W700b4fa0 W2a240 Wcb97fbec Wcb9559ac Wc386bbc4 W813e268 W813e268 Wc386bbc4 \
    W62b65ca Wfe178362 W0 W813e268 W0 W813e268 Wcb9a9e2c,B0 Wcb9a9e2c,B0 W448d26a4,B1 W448d26a4,B0 Dc386bbc40813e268 \
    B0 B1 B0 B1 B1 B0 B1 B0 B0 B1\n\
b Wc386bbc4 W0 Wc386bbc4 Wc386bbc4 W0 W0 Wc386bbc4 Wc386bbc4 Wc386bbc4 W0 W0 Wc386bbc4 W0 W0 !z !z !z !z Wc386bbc4,B0 \
    Wc386bbc4,B0 Wc386bbc4,B0 Wc386bbc4,B0 Dc386bbc4 B0 B1 B1 B0 B0 B1 B0 B1 B1 B0\n\
b Wc386bbc4 W3 Wc386bbc7 Wc386bbc1 W4a94334c W0 Wc386bbc7 Wc386bbc7 Wc386bbc4 W3 W3 Wc386bbc4 W2 Wffffffff W412ce941 \
    W1 Webd793ec W0 Wc386bbc7,B0 Wc386bbc7,B0 Wc386bbc1,B0 Wc386bbc1,B0 D3c386bbc4 B0 B1 B1 B0 B0 B1 B0 B1 B1 B0\n\
b Wc386bbc4 Wfffffffe Wc386bbc2 Wc386bbc6 W78f28878 Wc386bbc4 Wfffffffe W3c79443a Wc386bbc4 Wfffffffe Wc386bbc4 \
    Wfffffffe Wc386bbc2 W0 W0 Wc386bbc4 W1e3ca21e W0 Wc386bbc2,B1 Wc386bbc2,B0 Wc386bbc6,B1 Wc386bbc6,B0 \
    Dfffffffec386bbc4 B0 B1 B1 B0 B0 B1 B1 B0 B0 B1\n\
s W1 W0 W1 W1 W1 W1 W1\n\
s W1 W1 W2 W0 W0 W2 W80000000\n\
s W1 W1f W80000000 W0 W0 W80000000 W2\n\
s W1 W20 W1 W1 W1 W1 W1\n\
s W1 W21 W2 W0 W0 W2 W80000000\n\
s W1 Bff W80000000 W0 W0 W80000000 W2\n\
s W1 Q80000000000000000000000000000005 W20 W0 W0 W20 W8000000\n\
s Wffffffff W0 Wffffffff Wffffffff Wffffffff Wffffffff Wffffffff\n\
s Wffffffff W1 Wfffffffe W7fffffff Wffffffff Wffffffff Wffffffff\n\
s Wffffffff W1f W80000000 W1 Wffffffff Wffffffff Wffffffff\n\
s Wffffffff W20 Wffffffff Wffffffff Wffffffff Wffffffff Wffffffff\n\
s Wffffffff W21 Wfffffffe W7fffffff Wffffffff Wffffffff Wffffffff\n\
s Wffffffff Bff W80000000 W1 Wffffffff Wffffffff Wffffffff\n\
s Wffffffff Q80000000000000000000000000000005 Wffffffe0 W7ffffff Wffffffff Wffffffff Wffffffff\n\
s W80000000 W0 W80000000 W80000000 W80000000 W80000000 W80000000\n\
s W80000000 W1 W0 W40000000 Wc0000000 W1 W40000000\n\
s W80000000 W1f W0 W1 Wffffffff W40000000 W1\n\
s W80000000 W20 W80000000 W80000000 W80000000 W80000000 W80000000\n\
s W80000000 W21 W0 W40000000 Wc0000000 W1 W40000000\n\
s W80000000 Bff W0 W1 Wffffffff W40000000 W1\n\
s W80000000 Q80000000000000000000000000000005 W0 W4000000 Wfc000000 W10 W4000000\n\
s Wc386bbc4 W0 Wc386bbc4 Wc386bbc4 Wc386bbc4 Wc386bbc4 Wc386bbc4\n\
s Wc386bbc4 W1 W870d7788 W61c35de2 We1c35de2 W870d7789 W61c35de2\n\
s Wc386bbc4 W1f W0 W1 Wffffffff W61c35de2 W870d7789\n\
s Wc386bbc4 W20 Wc386bbc4 Wc386bbc4 Wc386bbc4 Wc386bbc4 Wc386bbc4\n\
s Wc386bbc4 W21 W870d7788 W61c35de2 We1c35de2 W870d7789 W61c35de2\n\
s Wc386bbc4 Bff W0 W1 Wffffffff W61c35de2 W870d7789\n\
s Wc386bbc4 Q80000000000000000000000000000005 W70d77880 W61c35de Wfe1c35de W70d77898 W261c35de\n\
t W0 Wc386bbc4 W813e268 W813e268\n\
t W80000000 Wc386bbc4 W813e268 Wc386bbc4\n\
t B1 Wc386bbc4 W813e268 Wc386bbc4\n\
t Q0 Wc386bbc4 W813e268 W813e268\n\
b B1 H1 - - - - - - - - - - - - - - - - - - - - - - - - - - - - - - -\n\
";
