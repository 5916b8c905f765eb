// Written by bench/eval_vectors.py, which says what a line means: 1667 cases.
pub const WIDE: &str = "\
u D0 D0 Dffffffffffffffff D0 D40 D40 D0 D0 D0 W0,W0 - - - Q0 - - - Q0 B0 H0 W0 -\n\
u D1 Dffffffffffffffff Dfffffffffffffffe D1 D3f D0 D1 D8000000000000000 D100000000000000 W1,W0 - - - Q1 - - - Q1 B1 \
    H1 W1 -\n\
u Dffffffffffffffff D1 D0 D1 D0 D0 D40 Dffffffffffffffff Dffffffffffffffff Wffffffff,Wffffffff - - - \
    Qffffffffffffffff - - - Qffffffffffffffffffffffffffffffff Bff Hffff Wffffffff -\n\
u D8000000000000000 D8000000000000000 D7fffffffffffffff D8000000000000000 D0 D3f D1 D1 D80 W0,W80000000 - - - \
    Q8000000000000000 - - - Qffffffffffffffff8000000000000000 B0 H0 W0 -\n\
u D7fffffffffffffff D8000000000000001 D8000000000000000 D7fffffffffffffff D1 D0 D3f Dfffffffffffffffe \
    Dffffffffffffff7f Wffffffff,W7fffffff - - - Q7fffffffffffffff - - - Q7fffffffffffffff Bff Hffff Wffffffff -\n\
u D1e2feb89414c343c De1d01476beb3cbc4 De1d01476beb3cbc3 D1e2feb89414c343c D3 D2 D1e D3c2c328291d7f478 \
    D3c344c4189eb2f1e W414c343c,W1e2feb89 - - - Q1e2feb89414c343c - - - Q1e2feb89414c343c B3c H343c W414c343c -\n\
u D616737a27ed4d57b D9e98c85d812b2a85 D9e98c85d812b2a84 D616737a27ed4d57b D1 D0 D25 Ddeab2b7e45ece686 \
    D7bd5d47ea2376761 W7ed4d57b,W616737a2 - - - Q616737a27ed4d57b - - - Q616737a27ed4d57b B7b Hd57b W7ed4d57b -\n\
b D0 D0 D0 D0 D0 D0 D0 D0 D0 D0 D0 D0 D0 D0 !z !z !z !z D0,B0 D0,B0 D0,B0 D0,B0 Q0 B1 B0 B0 B1 B0 B1 B0 B1 B0 B1\n\
b D0 Dffffffffffffffff Dffffffffffffffff D1 D0 D0 Dffffffffffffffff Dffffffffffffffff Dffffffffffffffff D0 D0 \
    Dffffffffffffffff D0 D0 D0 D0 D0 D0 Dffffffffffffffff,B0 Dffffffffffffffff,B0 D1,B1 D1,B0 \
    Qffffffffffffffff0000000000000000 B0 B1 B0 B1 B1 B0 B1 B0 B0 B1\n\
b D1 Dffffffffffffffff D0 D2 Dffffffffffffffff D1 Dffffffffffffffff Dfffffffffffffffe Dffffffffffffffff D1 D1 \
    Dffffffffffffffff D0 Dffffffffffffffff D0 D1 Dffffffffffffffff D0 D0,B1 D0,B0 D2,B1 D2,B0 \
    Qffffffffffffffff0000000000000001 B0 B1 B0 B1 B1 B0 B1 B0 B0 B1\n\
b Dffffffffffffffff Dffffffffffffffff Dfffffffffffffffe D0 D1 Dffffffffffffffff Dffffffffffffffff D0 \
    Dffffffffffffffff Dffffffffffffffff Dffffffffffffffff Dffffffffffffffff Dfffffffffffffffe D0 D1 D0 D1 D0 \
    Dfffffffffffffffe,B1 Dfffffffffffffffe,B0 D0,B0 D0,B0 Qffffffffffffffffffffffffffffffff B1 B0 B0 B1 B0 B1 B0 B1 \
    B0 B1\n\
b Dffffffffffffffff D1 D0 Dfffffffffffffffe Dffffffffffffffff D1 Dffffffffffffffff Dfffffffffffffffe \
    Dffffffffffffffff D1 D1 Dffffffffffffffff D0 Dffffffffffffffff Dffffffffffffffff D0 Dffffffffffffffff D0 D0,B1 \
    D0,B0 Dfffffffffffffffe,B0 Dfffffffffffffffe,B0 Q1ffffffffffffffff B0 B1 B1 B0 B0 B1 B0 B1 B1 B0\n\
b D8000000000000000 Dffffffffffffffff D7fffffffffffffff D8000000000000001 D8000000000000000 D8000000000000000 \
    Dffffffffffffffff D7fffffffffffffff D8000000000000000 Dffffffffffffffff D8000000000000000 Dffffffffffffffff \
    D7fffffffffffffff D0 D0 D8000000000000000 !o D0 D7fffffffffffffff,B1 D7fffffffffffffff,B1 D8000000000000001,B1 \
    D8000000000000001,B0 Qffffffffffffffff8000000000000000 B0 B1 B1 B0 B0 B1 B1 B0 B0 B1\n\
b D8000000000000000 D1 D8000000000000001 D7fffffffffffffff D8000000000000000 D0 D8000000000000001 D8000000000000001 \
    D8000000000000000 D1 D1 D8000000000000000 D0 Dffffffffffffffff D8000000000000000 D0 D8000000000000000 D0 \
    D8000000000000001,B0 D8000000000000001,B0 D7fffffffffffffff,B0 D7fffffffffffffff,B1 Q18000000000000000 B0 B1 B1 \
    B0 B0 B1 B0 B1 B1 B0\n\
b D8000000000000000 D8000000000000000 D0 D0 D0 D8000000000000000 D8000000000000000 D0 D8000000000000000 \
    D8000000000000000 D8000000000000000 D8000000000000000 D4000000000000000 D4000000000000000 D1 D0 D1 D0 D0,B1 D0,B1 \
    D0,B0 D0,B0 Q80000000000000008000000000000000 B1 B0 B0 B1 B0 B1 B0 B1 B0 B1\n\
b D7fffffffffffffff D1 D8000000000000000 D7ffffffffffffffe D7fffffffffffffff D1 D7fffffffffffffff D7ffffffffffffffe \
    D1 D7fffffffffffffff D1 D7fffffffffffffff D0 D0 D7fffffffffffffff D0 D7fffffffffffffff D0 D8000000000000000,B0 \
    D8000000000000000,B1 D7ffffffffffffffe,B0 D7ffffffffffffffe,B0 Q17fffffffffffffff B0 B1 B0 B1 B1 B0 B0 B1 B1 B0\n\
b D7fffffffffffffff D7fffffffffffffff Dfffffffffffffffe D0 D1 D7fffffffffffffff D7fffffffffffffff D0 \
    D7fffffffffffffff D7fffffffffffffff D7fffffffffffffff D7fffffffffffffff D3fffffffffffffff D3fffffffffffffff D1 D0 \
    D1 D0 Dfffffffffffffffe,B0 Dfffffffffffffffe,B1 D0,B0 D0,B0 Q7fffffffffffffff7fffffffffffffff B1 B0 B0 B1 B0 B1 \
    B0 B1 B0 B1\n\
b D8000000000000000 D7fffffffffffffff Dffffffffffffffff D1 D8000000000000000 D0 Dffffffffffffffff Dffffffffffffffff \
    D8000000000000000 D7fffffffffffffff D7fffffffffffffff D8000000000000000 D3fffffffffffffff Dc000000000000000 D1 D1 \
    Dffffffffffffffff Dffffffffffffffff Dffffffffffffffff,B0 Dffffffffffffffff,B0 D1,B0 D1,B1 \
    Q7fffffffffffffff8000000000000000 B0 B1 B1 B0 B0 B1 B0 B1 B1 B0\n\
b D7fffffffffffffff D8000000000000000 Dffffffffffffffff Dffffffffffffffff D8000000000000000 D0 Dffffffffffffffff \
    Dffffffffffffffff D8000000000000000 D7fffffffffffffff D7fffffffffffffff D8000000000000000 D3fffffffffffffff \
    Dc000000000000000 D0 D7fffffffffffffff D0 D7fffffffffffffff Dffffffffffffffff,B0 Dffffffffffffffff,B0 \
    Dffffffffffffffff,B1 Dffffffffffffffff,B1 Q80000000000000007fffffffffffffff B0 B1 B0 B1 B1 B0 B1 B0 B0 B1\n\
b D1e2feb89414c343c D616737a27ed4d57b D7f97232bc02109b7 Dbcc8b3e6c2775ec1 D6d62e50f90c304d4 D27238040441438 \
    D7f6fffab7fdcf57f D7f48dc2b3f98e147 D1e2feb89414c343c D616737a27ed4d57b D1e2feb89414c343c D616737a27ed4d57b \
    Db7c54163ad95e1f Db7c54163ad95e1f D0 D1e2feb89414c343c D0 D1e2feb89414c343c D7f97232bc02109b7,B0 \
    D7f97232bc02109b7,B0 Dbcc8b3e6c2775ec1,B1 Dbcc8b3e6c2775ec1,B0 Q616737a27ed4d57b1e2feb89414c343c B0 B1 B1 B0 B0 \
    B1 B1 B0 B0 B1\n\
b D616737a27ed4d57b D1e2feb89414c343c D7f97232bc02109b7 D43374c193d88a13f D6d62e50f90c304d4 D27238040441438 \
    D7f6fffab7fdcf57f D7f48dc2b3f98e147 D1e2feb89414c343c D616737a27ed4d57b D1e2feb89414c343c D616737a27ed4d57b \
    Db7c54163ad95e1f Db7c54163ad95e1f D3 D6d77506baf038c7 D3 D6d77506baf038c7 D7f97232bc02109b7,B0 \
    D7f97232bc02109b7,B0 D43374c193d88a13f,B0 D43374c193d88a13f,B0 Q1e2feb89414c343c616737a27ed4d57b B0 B1 B0 B1 B1 \
    B0 B0 B1 B1 B0\n\
b D1e2feb89414c343c D0 D1e2feb89414c343c D1e2feb89414c343c D0 D0 D1e2feb89414c343c D1e2feb89414c343c D0 \
    D1e2feb89414c343c D0 D1e2feb89414c343c D0 D0 !z !z !z !z D1e2feb89414c343c,B0 D1e2feb89414c343c,B0 \
    D1e2feb89414c343c,B0 D1e2feb89414c343c,B0 Q1e2feb89414c343c B0 B1 B0 B1 B1 B0 B0 B1 B1 B0\n\
b D1e2feb89414c343c D3 D1e2feb89414c343f D1e2feb89414c3439 D5a8fc29bc3e49cb4 D0 D1e2feb89414c343f D1e2feb89414c343f \
    D3 D1e2feb89414c343c D3 D1e2feb89414c343c D0 D0 Da0ff92dc06ebc14 D0 Da0ff92dc06ebc14 D0 D1e2feb89414c343f,B0 \
    D1e2feb89414c343f,B0 D1e2feb89414c3439,B0 D1e2feb89414c3439,B0 Q31e2feb89414c343c B0 B1 B0 B1 B1 B0 B0 B1 B1 B0\n\
b D1e2feb89414c343c Dfffffffffffffffe D1e2feb89414c343a D1e2feb89414c343e Dc3a028ed7d679788 D1e2feb89414c343c \
    Dfffffffffffffffe De1d01476beb3cbc2 Dfffffffffffffffe D1e2feb89414c343c D1e2feb89414c343c Dfffffffffffffffe \
    D1e2feb89414c343b Dffffffffffffffff D0 D1e2feb89414c343c Df0e80a3b5f59e5e2 D0 D1e2feb89414c343a,B1 \
    D1e2feb89414c343a,B0 D1e2feb89414c343e,B1 D1e2feb89414c343e,B0 Qfffffffffffffffe1e2feb89414c343c B0 B1 B0 B1 B1 \
    B0 B1 B0 B0 B1\n\
s D1 D0 D1 D1 D1 D1 D1\n\
s D1 D1 D2 D0 D0 D2 D8000000000000000\n\
s D1 D3f D8000000000000000 D0 D0 D8000000000000000 D2\n\
s D1 D40 D1 D1 D1 D1 D1\n\
s D1 D41 D2 D0 D0 D2 D8000000000000000\n\
s D1 Bff D8000000000000000 D0 D0 D8000000000000000 D2\n\
s D1 Q80000000000000000000000000000005 D20 D0 D0 D20 D800000000000000\n\
s Dffffffffffffffff D0 Dffffffffffffffff Dffffffffffffffff Dffffffffffffffff Dffffffffffffffff Dffffffffffffffff\n\
s Dffffffffffffffff D1 Dfffffffffffffffe D7fffffffffffffff Dffffffffffffffff Dffffffffffffffff Dffffffffffffffff\n\
s Dffffffffffffffff D3f D8000000000000000 D1 Dffffffffffffffff Dffffffffffffffff Dffffffffffffffff\n\
s Dffffffffffffffff D40 Dffffffffffffffff Dffffffffffffffff Dffffffffffffffff Dffffffffffffffff Dffffffffffffffff\n\
s Dffffffffffffffff D41 Dfffffffffffffffe D7fffffffffffffff Dffffffffffffffff Dffffffffffffffff Dffffffffffffffff\n\
s Dffffffffffffffff Bff D8000000000000000 D1 Dffffffffffffffff Dffffffffffffffff Dffffffffffffffff\n\
s Dffffffffffffffff Q80000000000000000000000000000005 Dffffffffffffffe0 D7ffffffffffffff Dffffffffffffffff \
    Dffffffffffffffff Dffffffffffffffff\n\
s D8000000000000000 D0 D8000000000000000 D8000000000000000 D8000000000000000 D8000000000000000 D8000000000000000\n\
s D8000000000000000 D1 D0 D4000000000000000 Dc000000000000000 D1 D4000000000000000\n\
s D8000000000000000 D3f D0 D1 Dffffffffffffffff D4000000000000000 D1\n\
s D8000000000000000 D40 D8000000000000000 D8000000000000000 D8000000000000000 D8000000000000000 D8000000000000000\n\
s D8000000000000000 D41 D0 D4000000000000000 Dc000000000000000 D1 D4000000000000000\n\
s D8000000000000000 Bff D0 D1 Dffffffffffffffff D4000000000000000 D1\n\
s D8000000000000000 Q80000000000000000000000000000005 D0 D400000000000000 Dfc00000000000000 D10 D400000000000000\n\
s D1e2feb89414c343c D0 D1e2feb89414c343c D1e2feb89414c343c D1e2feb89414c343c D1e2feb89414c343c D1e2feb89414c343c\n\
s D1e2feb89414c343c D1 D3c5fd71282986878 Df17f5c4a0a61a1e Df17f5c4a0a61a1e D3c5fd71282986878 Df17f5c4a0a61a1e\n\
s D1e2feb89414c343c D3f D0 D0 D0 Df17f5c4a0a61a1e D3c5fd71282986878\n\
s D1e2feb89414c343c D40 D1e2feb89414c343c D1e2feb89414c343c D1e2feb89414c343c D1e2feb89414c343c D1e2feb89414c343c\n\
s D1e2feb89414c343c D41 D3c5fd71282986878 Df17f5c4a0a61a1e Df17f5c4a0a61a1e D3c5fd71282986878 Df17f5c4a0a61a1e\n\
s D1e2feb89414c343c Bff D0 D0 D0 Df17f5c4a0a61a1e D3c5fd71282986878\n\
s D1e2feb89414c343c Q80000000000000000000000000000005 Dc5fd712829868780 Df17f5c4a0a61a1 Df17f5c4a0a61a1 \
    Dc5fd712829868783 De0f17f5c4a0a61a1\n\
t D0 D1e2feb89414c343c D616737a27ed4d57b D616737a27ed4d57b\n\
t D8000000000000000 D1e2feb89414c343c D616737a27ed4d57b D1e2feb89414c343c\n\
t B1 D1e2feb89414c343c D616737a27ed4d57b D1e2feb89414c343c\n\
t Q0 D1e2feb89414c343c D616737a27ed4d57b D616737a27ed4d57b\n\
u Q0 Q0 Qffffffffffffffffffffffffffffffff Q0 Q80 Q80 Q0 Q0 Q0 D0,D0 - - - - - - - - B0 H0 W0 D0\n\
u Q1 Qffffffffffffffffffffffffffffffff Qfffffffffffffffffffffffffffffffe Q1 Q7f Q0 Q1 \
    Q80000000000000000000000000000000 Q1000000000000000000000000000000 D1,D0 - - - - - - - - B1 H1 W1 D1\n\
u Qffffffffffffffffffffffffffffffff Q1 Q0 Q1 Q0 Q0 Q80 Qffffffffffffffffffffffffffffffff \
    Qffffffffffffffffffffffffffffffff Dffffffffffffffff,Dffffffffffffffff - - - - - - - - Bff Hffff Wffffffff \
    Dffffffffffffffff\n\
u Q80000000000000000000000000000000 Q80000000000000000000000000000000 Q7fffffffffffffffffffffffffffffff \
    Q80000000000000000000000000000000 Q0 Q7f Q1 Q1 Q80 D0,D8000000000000000 - - - - - - - - B0 H0 W0 D0\n\
u Q7fffffffffffffffffffffffffffffff Q80000000000000000000000000000001 Q80000000000000000000000000000000 \
    Q7fffffffffffffffffffffffffffffff Q1 Q0 Q7f Qfffffffffffffffffffffffffffffffe Qffffffffffffffffffffffffffffff7f \
    Dffffffffffffffff,D7fffffffffffffff - - - - - - - - Bff Hffff Wffffffff Dffffffffffffffff\n\
u Q612e7696a6cecc1b78e510617311d8a3 Q9ed18969593133e4871aef9e8cee275d Q9ed18969593133e4871aef9e8cee275c \
    Q612e7696a6cecc1b78e510617311d8a3 Q1 Q0 Q3d Qc51b88ce8608a71ed8337365696e7486 Qa3d811736110e5781bcccea696762e61 \
    D78e510617311d8a3,D612e7696a6cecc1b - - - - - - - - Ba3 Hd8a3 W7311d8a3 D78e510617311d8a3\n\
u Q3e72164118072e8c35bf992dc9e9c616 Qc18de9bee7f8d173ca4066d2361639ea Qc18de9bee7f8d173ca4066d2361639e9 \
    Q3e72164118072e8c35bf992dc9e9c616 Q2 Q1 Q3d Q68639793b499fdac3174e01882684e7c Q16c6e9c92d99bf358c2e07184116723e \
    D35bf992dc9e9c616,D3e72164118072e8c - - - - - - - - B16 Hc616 Wc9e9c616 D35bf992dc9e9c616\n\
b Q0 Q0 Q0 Q0 Q0 Q0 Q0 Q0 Q0 Q0 Q0 Q0 - - - - - - Q0,B0 Q0,B0 Q0,B0 Q0,B0 - B1 B0 B0 B1 B0 B1 B0 B1 B0 B1\n\
b Q0 Qffffffffffffffffffffffffffffffff Qffffffffffffffffffffffffffffffff Q1 Q0 Q0 Qffffffffffffffffffffffffffffffff \
    Qffffffffffffffffffffffffffffffff Qffffffffffffffffffffffffffffffff Q0 Q0 Qffffffffffffffffffffffffffffffff - - - \
    - - - Qffffffffffffffffffffffffffffffff,B0 Qffffffffffffffffffffffffffffffff,B0 Q1,B1 Q1,B0 - B0 B1 B0 B1 B1 B0 \
    B1 B0 B0 B1\n\
b Q1 Qffffffffffffffffffffffffffffffff Q0 Q2 Qffffffffffffffffffffffffffffffff Q1 Qffffffffffffffffffffffffffffffff \
    Qfffffffffffffffffffffffffffffffe Qffffffffffffffffffffffffffffffff Q1 Q1 Qffffffffffffffffffffffffffffffff - - - \
    - - - Q0,B1 Q0,B0 Q2,B1 Q2,B0 - B0 B1 B0 B1 B1 B0 B1 B0 B0 B1\n\
b Qffffffffffffffffffffffffffffffff Qffffffffffffffffffffffffffffffff Qfffffffffffffffffffffffffffffffe Q0 Q1 \
    Qffffffffffffffffffffffffffffffff Qffffffffffffffffffffffffffffffff Q0 Qffffffffffffffffffffffffffffffff \
    Qffffffffffffffffffffffffffffffff Qffffffffffffffffffffffffffffffff Qffffffffffffffffffffffffffffffff - - - - - - \
    Qfffffffffffffffffffffffffffffffe,B1 Qfffffffffffffffffffffffffffffffe,B0 Q0,B0 Q0,B0 - B1 B0 B0 B1 B0 B1 B0 B1 \
    B0 B1\n\
b Qffffffffffffffffffffffffffffffff Q1 Q0 Qfffffffffffffffffffffffffffffffe Qffffffffffffffffffffffffffffffff Q1 \
    Qffffffffffffffffffffffffffffffff Qfffffffffffffffffffffffffffffffe Qffffffffffffffffffffffffffffffff Q1 Q1 \
    Qffffffffffffffffffffffffffffffff - - - - - - Q0,B1 Q0,B0 Qfffffffffffffffffffffffffffffffe,B0 \
    Qfffffffffffffffffffffffffffffffe,B0 - B0 B1 B1 B0 B0 B1 B0 B1 B1 B0\n\
b Q80000000000000000000000000000000 Qffffffffffffffffffffffffffffffff Q7fffffffffffffffffffffffffffffff \
    Q80000000000000000000000000000001 Q80000000000000000000000000000000 Q80000000000000000000000000000000 \
    Qffffffffffffffffffffffffffffffff Q7fffffffffffffffffffffffffffffff Q80000000000000000000000000000000 \
    Qffffffffffffffffffffffffffffffff Q80000000000000000000000000000000 Qffffffffffffffffffffffffffffffff - - - - - - \
    Q7fffffffffffffffffffffffffffffff,B1 Q7fffffffffffffffffffffffffffffff,B1 Q80000000000000000000000000000001,B1 \
    Q80000000000000000000000000000001,B0 - B0 B1 B1 B0 B0 B1 B1 B0 B0 B1\n\
b Q80000000000000000000000000000000 Q1 Q80000000000000000000000000000001 Q7fffffffffffffffffffffffffffffff \
    Q80000000000000000000000000000000 Q0 Q80000000000000000000000000000001 Q80000000000000000000000000000001 \
    Q80000000000000000000000000000000 Q1 Q1 Q80000000000000000000000000000000 - - - - - - \
    Q80000000000000000000000000000001,B0 Q80000000000000000000000000000001,B0 Q7fffffffffffffffffffffffffffffff,B0 \
    Q7fffffffffffffffffffffffffffffff,B1 - B0 B1 B1 B0 B0 B1 B0 B1 B1 B0\n\
b Q80000000000000000000000000000000 Q80000000000000000000000000000000 Q0 Q0 Q0 Q80000000000000000000000000000000 \
    Q80000000000000000000000000000000 Q0 Q80000000000000000000000000000000 Q80000000000000000000000000000000 \
    Q80000000000000000000000000000000 Q80000000000000000000000000000000 - - - - - - Q0,B1 Q0,B1 Q0,B0 Q0,B0 - B1 B0 \
    B0 B1 B0 B1 B0 B1 B0 B1\n\
b Q7fffffffffffffffffffffffffffffff Q1 Q80000000000000000000000000000000 Q7ffffffffffffffffffffffffffffffe \
    Q7fffffffffffffffffffffffffffffff Q1 Q7fffffffffffffffffffffffffffffff Q7ffffffffffffffffffffffffffffffe Q1 \
    Q7fffffffffffffffffffffffffffffff Q1 Q7fffffffffffffffffffffffffffffff - - - - - - \
    Q80000000000000000000000000000000,B0 Q80000000000000000000000000000000,B1 Q7ffffffffffffffffffffffffffffffe,B0 \
    Q7ffffffffffffffffffffffffffffffe,B0 - B0 B1 B0 B1 B1 B0 B0 B1 B1 B0\n\
b Q7fffffffffffffffffffffffffffffff Q7fffffffffffffffffffffffffffffff Qfffffffffffffffffffffffffffffffe Q0 Q1 \
    Q7fffffffffffffffffffffffffffffff Q7fffffffffffffffffffffffffffffff Q0 Q7fffffffffffffffffffffffffffffff \
    Q7fffffffffffffffffffffffffffffff Q7fffffffffffffffffffffffffffffff Q7fffffffffffffffffffffffffffffff - - - - - - \
    Qfffffffffffffffffffffffffffffffe,B0 Qfffffffffffffffffffffffffffffffe,B1 Q0,B0 Q0,B0 - B1 B0 B0 B1 B0 B1 B0 B1 \
    B0 B1\n\
b Q80000000000000000000000000000000 Q7fffffffffffffffffffffffffffffff Qffffffffffffffffffffffffffffffff Q1 \
    Q80000000000000000000000000000000 Q0 Qffffffffffffffffffffffffffffffff Qffffffffffffffffffffffffffffffff \
    Q80000000000000000000000000000000 Q7fffffffffffffffffffffffffffffff Q7fffffffffffffffffffffffffffffff \
    Q80000000000000000000000000000000 - - - - - - Qffffffffffffffffffffffffffffffff,B0 \
    Qffffffffffffffffffffffffffffffff,B0 Q1,B0 Q1,B1 - B0 B1 B1 B0 B0 B1 B0 B1 B1 B0\n\
b Q7fffffffffffffffffffffffffffffff Q80000000000000000000000000000000 Qffffffffffffffffffffffffffffffff \
    Qffffffffffffffffffffffffffffffff Q80000000000000000000000000000000 Q0 Qffffffffffffffffffffffffffffffff \
    Qffffffffffffffffffffffffffffffff Q80000000000000000000000000000000 Q7fffffffffffffffffffffffffffffff \
    Q7fffffffffffffffffffffffffffffff Q80000000000000000000000000000000 - - - - - - \
    Qffffffffffffffffffffffffffffffff,B0 Qffffffffffffffffffffffffffffffff,B0 Qffffffffffffffffffffffffffffffff,B1 \
    Qffffffffffffffffffffffffffffffff,B1 - B0 B1 B0 B1 B1 B0 B1 B0 B0 B1\n\
b Q612e7696a6cecc1b78e510617311d8a3 Q3e72164118072e8c35bf992dc9e9c616 Q9fa08cd7bed5faa7aea4a98f3cfb9eb9 \
    Q22bc60558ec79d8f43257733a928128d Qf3101ef7824a1a6b3f9f055cd871b002 Q2022160000060c0830a510214101c002 \
    Q7f7e76d7becfee9f7dff996dfbf9deb7 Q5f5c60d7bec9e2974d5a894cbaf81eb5 Q3e72164118072e8c35bf992dc9e9c616 \
    Q612e7696a6cecc1b78e510617311d8a3 Q3e72164118072e8c35bf992dc9e9c616 Q612e7696a6cecc1b78e510617311d8a3 - - - - - - \
    Q9fa08cd7bed5faa7aea4a98f3cfb9eb9,B0 Q9fa08cd7bed5faa7aea4a98f3cfb9eb9,B1 Q22bc60558ec79d8f43257733a928128d,B0 \
    Q22bc60558ec79d8f43257733a928128d,B0 - B0 B1 B0 B1 B1 B0 B0 B1 B1 B0\n\
b Q3e72164118072e8c35bf992dc9e9c616 Q612e7696a6cecc1b78e510617311d8a3 Q9fa08cd7bed5faa7aea4a98f3cfb9eb9 \
    Qdd439faa71386270bcda88cc56d7ed73 Qf3101ef7824a1a6b3f9f055cd871b002 Q2022160000060c0830a510214101c002 \
    Q7f7e76d7becfee9f7dff996dfbf9deb7 Q5f5c60d7bec9e2974d5a894cbaf81eb5 Q3e72164118072e8c35bf992dc9e9c616 \
    Q612e7696a6cecc1b78e510617311d8a3 Q3e72164118072e8c35bf992dc9e9c616 Q612e7696a6cecc1b78e510617311d8a3 - - - - - - \
    Q9fa08cd7bed5faa7aea4a98f3cfb9eb9,B0 Q9fa08cd7bed5faa7aea4a98f3cfb9eb9,B1 Qdd439faa71386270bcda88cc56d7ed73,B1 \
    Qdd439faa71386270bcda88cc56d7ed73,B0 - B0 B1 B1 B0 B0 B1 B1 B0 B0 B1\n\
b Q612e7696a6cecc1b78e510617311d8a3 Q0 Q612e7696a6cecc1b78e510617311d8a3 Q612e7696a6cecc1b78e510617311d8a3 Q0 Q0 \
    Q612e7696a6cecc1b78e510617311d8a3 Q612e7696a6cecc1b78e510617311d8a3 Q0 Q612e7696a6cecc1b78e510617311d8a3 Q0 \
    Q612e7696a6cecc1b78e510617311d8a3 - - - - - - Q612e7696a6cecc1b78e510617311d8a3,B0 \
    Q612e7696a6cecc1b78e510617311d8a3,B0 Q612e7696a6cecc1b78e510617311d8a3,B0 Q612e7696a6cecc1b78e510617311d8a3,B0 - \
    B0 B1 B0 B1 B1 B0 B0 B1 B1 B0\n\
b Q612e7696a6cecc1b78e510617311d8a3 Q3 Q612e7696a6cecc1b78e510617311d8a6 Q612e7696a6cecc1b78e510617311d8a0 \
    Q238b63c3f46c64526aaf3124593589e9 Q3 Q612e7696a6cecc1b78e510617311d8a3 Q612e7696a6cecc1b78e510617311d8a0 Q3 \
    Q612e7696a6cecc1b78e510617311d8a3 Q3 Q612e7696a6cecc1b78e510617311d8a3 - - - - - - \
    Q612e7696a6cecc1b78e510617311d8a6,B0 Q612e7696a6cecc1b78e510617311d8a6,B0 Q612e7696a6cecc1b78e510617311d8a0,B0 \
    Q612e7696a6cecc1b78e510617311d8a0,B0 - B0 B1 B0 B1 B1 B0 B0 B1 B1 B0\n\
b Q612e7696a6cecc1b78e510617311d8a3 Qfffffffffffffffffffffffffffffffe Q612e7696a6cecc1b78e510617311d8a1 \
    Q612e7696a6cecc1b78e510617311d8a5 Q3da312d2b26267c90e35df3d19dc4eba Q612e7696a6cecc1b78e510617311d8a2 \
    Qffffffffffffffffffffffffffffffff Q9ed18969593133e4871aef9e8cee275d Qfffffffffffffffffffffffffffffffe \
    Q612e7696a6cecc1b78e510617311d8a3 Q612e7696a6cecc1b78e510617311d8a3 Qfffffffffffffffffffffffffffffffe - - - - - - \
    Q612e7696a6cecc1b78e510617311d8a1,B1 Q612e7696a6cecc1b78e510617311d8a1,B0 Q612e7696a6cecc1b78e510617311d8a5,B1 \
    Q612e7696a6cecc1b78e510617311d8a5,B0 - B0 B1 B0 B1 B1 B0 B1 B0 B0 B1\n\
s Q1 Q0 Q1 Q1 Q1 Q1 Q1\n\
s Q1 Q1 Q2 Q0 Q0 Q2 Q80000000000000000000000000000000\n\
s Q1 Q7f Q80000000000000000000000000000000 Q0 Q0 Q80000000000000000000000000000000 Q2\n\
s Q1 Q80 Q1 Q1 Q1 Q1 Q1\n\
s Q1 Q81 Q2 Q0 Q0 Q2 Q80000000000000000000000000000000\n\
s Q1 Bff Q80000000000000000000000000000000 Q0 Q0 Q80000000000000000000000000000000 Q2\n\
s Q1 Q80000000000000000000000000000005 Q20 Q0 Q0 Q20 Q8000000000000000000000000000000\n\
s Qffffffffffffffffffffffffffffffff Q0 Qffffffffffffffffffffffffffffffff Qffffffffffffffffffffffffffffffff \
    Qffffffffffffffffffffffffffffffff Qffffffffffffffffffffffffffffffff Qffffffffffffffffffffffffffffffff\n\
s Qffffffffffffffffffffffffffffffff Q1 Qfffffffffffffffffffffffffffffffe Q7fffffffffffffffffffffffffffffff \
    Qffffffffffffffffffffffffffffffff Qffffffffffffffffffffffffffffffff Qffffffffffffffffffffffffffffffff\n\
s Qffffffffffffffffffffffffffffffff Q7f Q80000000000000000000000000000000 Q1 Qffffffffffffffffffffffffffffffff \
    Qffffffffffffffffffffffffffffffff Qffffffffffffffffffffffffffffffff\n\
s Qffffffffffffffffffffffffffffffff Q80 Qffffffffffffffffffffffffffffffff Qffffffffffffffffffffffffffffffff \
    Qffffffffffffffffffffffffffffffff Qffffffffffffffffffffffffffffffff Qffffffffffffffffffffffffffffffff\n\
s Qffffffffffffffffffffffffffffffff Q81 Qfffffffffffffffffffffffffffffffe Q7fffffffffffffffffffffffffffffff \
    Qffffffffffffffffffffffffffffffff Qffffffffffffffffffffffffffffffff Qffffffffffffffffffffffffffffffff\n\
s Qffffffffffffffffffffffffffffffff Bff Q80000000000000000000000000000000 Q1 Qffffffffffffffffffffffffffffffff \
    Qffffffffffffffffffffffffffffffff Qffffffffffffffffffffffffffffffff\n\
s Qffffffffffffffffffffffffffffffff Q80000000000000000000000000000005 Qffffffffffffffffffffffffffffffe0 \
    Q7ffffffffffffffffffffffffffffff Qffffffffffffffffffffffffffffffff Qffffffffffffffffffffffffffffffff \
    Qffffffffffffffffffffffffffffffff\n\
s Q80000000000000000000000000000000 Q0 Q80000000000000000000000000000000 Q80000000000000000000000000000000 \
    Q80000000000000000000000000000000 Q80000000000000000000000000000000 Q80000000000000000000000000000000\n\
s Q80000000000000000000000000000000 Q1 Q0 Q40000000000000000000000000000000 Qc0000000000000000000000000000000 Q1 \
    Q40000000000000000000000000000000\n\
s Q80000000000000000000000000000000 Q7f Q0 Q1 Qffffffffffffffffffffffffffffffff Q40000000000000000000000000000000 Q1\n\
s Q80000000000000000000000000000000 Q80 Q80000000000000000000000000000000 Q80000000000000000000000000000000 \
    Q80000000000000000000000000000000 Q80000000000000000000000000000000 Q80000000000000000000000000000000\n\
s Q80000000000000000000000000000000 Q81 Q0 Q40000000000000000000000000000000 Qc0000000000000000000000000000000 Q1 \
    Q40000000000000000000000000000000\n\
s Q80000000000000000000000000000000 Bff Q0 Q1 Qffffffffffffffffffffffffffffffff Q40000000000000000000000000000000 Q1\n\
s Q80000000000000000000000000000000 Q80000000000000000000000000000005 Q0 Q4000000000000000000000000000000 \
    Qfc000000000000000000000000000000 Q10 Q4000000000000000000000000000000\n\
s Q612e7696a6cecc1b78e510617311d8a3 Q0 Q612e7696a6cecc1b78e510617311d8a3 Q612e7696a6cecc1b78e510617311d8a3 \
    Q612e7696a6cecc1b78e510617311d8a3 Q612e7696a6cecc1b78e510617311d8a3 Q612e7696a6cecc1b78e510617311d8a3\n\
s Q612e7696a6cecc1b78e510617311d8a3 Q1 Qc25ced2d4d9d9836f1ca20c2e623b146 Q30973b4b5367660dbc728830b988ec51 \
    Q30973b4b5367660dbc728830b988ec51 Qc25ced2d4d9d9836f1ca20c2e623b146 Qb0973b4b5367660dbc728830b988ec51\n\
s Q612e7696a6cecc1b78e510617311d8a3 Q7f Q80000000000000000000000000000000 Q0 Q0 Qb0973b4b5367660dbc728830b988ec51 \
    Qc25ced2d4d9d9836f1ca20c2e623b146\n\
s Q612e7696a6cecc1b78e510617311d8a3 Q80 Q612e7696a6cecc1b78e510617311d8a3 Q612e7696a6cecc1b78e510617311d8a3 \
    Q612e7696a6cecc1b78e510617311d8a3 Q612e7696a6cecc1b78e510617311d8a3 Q612e7696a6cecc1b78e510617311d8a3\n\
s Q612e7696a6cecc1b78e510617311d8a3 Q81 Qc25ced2d4d9d9836f1ca20c2e623b146 Q30973b4b5367660dbc728830b988ec51 \
    Q30973b4b5367660dbc728830b988ec51 Qc25ced2d4d9d9836f1ca20c2e623b146 Qb0973b4b5367660dbc728830b988ec51\n\
s Q612e7696a6cecc1b78e510617311d8a3 Bff Q80000000000000000000000000000000 Q0 Q0 Qb0973b4b5367660dbc728830b988ec51 \
    Qc25ced2d4d9d9836f1ca20c2e623b146\n\
s Q612e7696a6cecc1b78e510617311d8a3 Q80000000000000000000000000000005 Q25ced2d4d9d9836f1ca20c2e623b1460 \
    Q30973b4b5367660dbc728830b988ec5 Q30973b4b5367660dbc728830b988ec5 Q25ced2d4d9d9836f1ca20c2e623b146c \
    Q1b0973b4b5367660dbc728830b988ec5\n\
t Q0 Q612e7696a6cecc1b78e510617311d8a3 Q3e72164118072e8c35bf992dc9e9c616 Q3e72164118072e8c35bf992dc9e9c616\n\
t Q80000000000000000000000000000000 Q612e7696a6cecc1b78e510617311d8a3 Q3e72164118072e8c35bf992dc9e9c616 \
    Q612e7696a6cecc1b78e510617311d8a3\n\
t B1 Q612e7696a6cecc1b78e510617311d8a3 Q3e72164118072e8c35bf992dc9e9c616 Q612e7696a6cecc1b78e510617311d8a3\n\
t Q0 Q612e7696a6cecc1b78e510617311d8a3 Q3e72164118072e8c35bf992dc9e9c616 Q3e72164118072e8c35bf992dc9e9c616\n\
b D1 B1 - - - - - - - - - - - - - - - - - - - - - - - - - - - - - - -\n\
";
