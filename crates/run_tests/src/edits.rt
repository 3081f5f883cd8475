//! Sessions of edits, whose replies were worked out apart from the program.

use crate::transcripts::is_answered_so;
use std::test::Fail;

// Keys that are kept, and contents that are spelt in two ways.
#[rattlefmt::skip]
const REPEATS: &[u8] = b"> remove k id 1 any
refused edit 11 NoRule
> add k execute allow 0 never - - always
ok edit=1 rules=1
> add k execute allow 0 never - - always
repeated edit=1 rules=1
> add k execute deny 0 never - - always
refused edit 12 KeyReused edit=1 rules=1
> status
status assessments=enabled rules=1 receipts=1 objects=0 now=0
> add two execute allow -0.50 0100 %54ool default+inhibit always
ok edit=2 rules=1
> add two execute allow -00.5 100 Tool default+inhibit always
repeated edit=2 rules=1
> add two execute allow -0.5 100 Tool default+inhibit  always
refused edit 12 KeyReused edit=2 rules=1
> expire e id 000001 any 0007
ok edit=3 rules=1
> expire e id 1 any 7
repeated edit=3 rules=1
> expire e id 1 any 8
refused edit 12 KeyReused edit=3 rules=1
> expire e id 1 execute 7
refused edit 12 KeyReused edit=3 rules=1
> disable d label T%6fol any
ok edit=4 rules=1
> disable d label Tool any
repeated edit=4 rules=1
> enable d label Tool any
refused edit 12 KeyReused edit=4 rules=1
> remove r id 2 any
ok edit=5 rules=1
> remove r id 2 any
repeated edit=5 rules=1
> remove q id 2 any
refused edit 11 NoRule
> disable d label Tool any
repeated edit=4 rules=1
> add two execute allow -0.5 100 Tool default+inhibit always
repeated edit=2 rules=1
> switch s on
ok edit=6 rules=0
> switch s on
repeated edit=6 rules=0
> switch s off
refused edit 12 KeyReused edit=6 rules=0
> status
status assessments=enabled rules=1 receipts=6 objects=0 now=0";

// Assessments switched off and on.
#[rattlefmt::skip]
const SWITCHES: &[u8] = b"> add d execute deny 0 never Blocked - always
ok edit=1 rules=1
> switch s1 off
ok edit=2 rules=0
> assess execute 1111111111111111111111111111111111111111 com.example.app 0
accepted at=0 rule=1 latent=none label=Blocked override=security%20disabled source=rules cache=kept
> assess install 1111111111111111111111111111111111111111 com.example.app 0
accepted at=0 rule=none latent=none label=no%20matching%20rule override=security%20disabled source=rules cache=kept
> assess open unsigned
accepted at=0 rule=none latent=none label=no%20usable%20signature override=security%20disabled source=unsigned cache=none
> status
status assessments=disabled rules=1 receipts=2 objects=2 now=0
> add a open allow 0 never Open - always
ok edit=3 rules=1
> assess open 1111111111111111111111111111111111111111 com.example.app 0
accepted at=0 rule=3 latent=none label=Open override=none source=rules cache=kept
> switch s2 on
ok edit=4 rules=0
> assess execute 1111111111111111111111111111111111111111 com.example.app 0
rejected at=0 rule=1 latent=none label=Blocked override=none source=cache cache=none
> assess open unsigned
rejected at=0 rule=none latent=none label=no%20usable%20signature override=none source=unsigned cache=none
> status
status assessments=enabled rules=2 receipts=4 objects=3 now=0";

// Rules by id and by label, disabled, counted and enabled.
#[rattlefmt::skip]
const DISABLED: &[u8] = b"> add a execute allow 0 never Dev%20ID - always
ok edit=1 rules=1
> disable b id 1 execute
ok edit=2 rules=1
> assess execute 1111111111111111111111111111111111111111 com.example.app 0
rejected at=0 rule=none latent=1 label=Dev%20ID override=none source=rules cache=kept
> enable c label Dev%20ID any
ok edit=3 rules=1
> assess execute 1111111111111111111111111111111111111111 com.example.app 0
accepted at=0 rule=1 latent=none label=Dev%20ID override=none source=rules cache=kept
> disable d id 1 any
ok edit=4 rules=1
> disable e label Dev%20ID execute
ok edit=5 rules=1
> assess execute 1111111111111111111111111111111111111111 com.example.app 0
rejected at=0 rule=none latent=1 label=Dev%20ID override=none source=rules cache=kept
> enable f id 1 any
ok edit=6 rules=1
> assess execute 1111111111111111111111111111111111111111 com.example.app 0
accepted at=0 rule=1 latent=none label=Dev%20ID override=none source=rules cache=kept
> disable g label Dev any
refused edit 11 NoRule
> disable g label dev%20ID any
refused edit 11 NoRule
> disable g label Dev%20ID%20 any
refused edit 11 NoRule
> disable g id 2 any
refused edit 11 NoRule
> disable g id 1 install
refused edit 11 NoRule
> enable g id 1 any
ok edit=7 rules=1";

// Edits that touch rules of three kinds at once, or of one.
#[rattlefmt::skip]
const KINDS: &[u8] = b"> add a execute allow 0 never Tool - always
ok edit=1 rules=1
> add b install allow 0 never Tool - always
ok edit=2 rules=1
> add c open deny 0 never Tool - always
ok edit=3 rules=1
> add d open deny -1 never Other - always
ok edit=4 rules=1
> disable e label Tool any
ok edit=5 rules=3
> assess execute 1111111111111111111111111111111111111111 com.example.app 0
rejected at=0 rule=none latent=1 label=Tool override=none source=rules cache=kept
> assess install 1111111111111111111111111111111111111111 com.example.app 0
rejected at=0 rule=none latent=2 label=Tool override=none source=rules cache=kept
> assess open 1111111111111111111111111111111111111111 com.example.app 0
rejected at=0 rule=4 latent=none label=Other override=none source=rules cache=kept
> disable f label Tool open
ok edit=6 rules=1
> disable g id 3 execute
refused edit 11 NoRule
> disable g id 3 open
ok edit=7 rules=1
> enable h label Tool install
ok edit=8 rules=1
> assess install 1111111111111111111111111111111111111111 com.example.app 0
accepted at=0 rule=2 latent=none label=Tool override=none source=rules cache=kept
> enable i id 3 any
ok edit=9 rules=1
> assess open 1111111111111111111111111111111111111111 com.example.app 0
rejected at=0 rule=3 latent=none label=Tool override=none source=rules cache=kept
> remove j label Tool any
ok edit=10 rules=3
> assess open 1111111111111111111111111111111111111111 com.example.app 0
rejected at=0 rule=4 latent=none label=Other override=none source=rules cache=kept
> assess execute 1111111111111111111111111111111111111111 com.example.app 0
rejected at=0 rule=none latent=none label=no%20matching%20rule override=none source=rules cache=kept
> remove k label Tool any
refused edit 11 NoRule
> status
status assessments=enabled rules=1 receipts=10 objects=2 now=0
> expire l id 4 any 10
ok edit=11 rules=1
> tick 9
now=9
> assess open 1111111111111111111111111111111111111111 com.example.app 0
rejected at=9 rule=4 latent=none label=Other override=none source=rules cache=kept
> tick 10
now=10
> assess open 1111111111111111111111111111111111111111 com.example.app 0
rejected at=10 rule=none latent=none label=no%20matching%20rule override=none source=rules cache=kept
> expire m label Other open never
ok edit=12 rules=1
> assess open 1111111111111111111111111111111111111111 com.example.app 0
rejected at=10 rule=4 latent=none label=Other override=none source=rules cache=kept
> add n open allow -1 never Late - always
ok edit=13 rules=1
> remove o id 4 any
ok edit=14 rules=1
> assess open 1111111111111111111111111111111111111111 com.example.app 0
accepted at=10 rule=13 latent=none label=Late override=none source=rules cache=kept
> status
status assessments=enabled rules=1 receipts=14 objects=2 now=10";

// Labels of every byte, spelt in two ways.
#[rattlefmt::skip]
const LABELS: &[u8] = b"> add a execute allow 0 never %00%01%02%03%04%05%06%07%08%09%0a%0b%0c%0d%0e%0f%10%11%12%13%14%15%16%17%18%19%1a%1b%1c%1d%1e%1f%20%21%22%23%24%25%26%27%28%29%2a%2b%2c%2d%2e%2f%30%31%32%33%34%35%36%37%38%39%3a%3b%3c%3d%3e%3f%40%41%42%43%44%45%46%47%48%49%4a%4b%4c%4d%4e%4f%50%51%52%53%54%55%56%57%58%59%5a%5b%5c%5d%5e%5f%60%61%62%63%64%65%66%67%68%69%6a%6b%6c%6d%6e%6f%70%71%72%73%74%75%76%77%78%79%7a%7b%7c%7d%7e%7f - always
ok edit=1 rules=1
> assess execute 1111111111111111111111111111111111111111 com.example.app 0
accepted at=0 rule=1 latent=none label=%00%01%02%03%04%05%06%07%08%09%0A%0B%0C%0D%0E%0F%10%11%12%13%14%15%16%17%18%19%1A%1B%1C%1D%1E%1F%20!\"#$%25&'()*+,-./0123456789:;<=>?@ABCDEFGHIJKLMNOPQRSTUVWXYZ[\\]^_`abcdefghijklmnopqrstuvwxyz{|}~%7F override=none source=rules cache=kept
> add b execute deny 1 never \x80\x81\x82\x83\x84\x85\x86\x87\x88\x89\x8a\x8b\x8c\x8d\x8e\x8f\x90\x91\x92\x93\x94\x95\x96\x97\x98\x99\x9a\x9b\x9c\x9d\x9e\x9f\xa0\xa1\xa2\xa3\xa4\xa5\xa6\xa7\xa8\xa9\xaa\xab\xac\xad\xae\xaf\xb0\xb1\xb2\xb3\xb4\xb5\xb6\xb7\xb8\xb9\xba\xbb\xbc\xbd\xbe\xbf\xc0\xc1\xc2\xc3\xc4\xc5\xc6\xc7\xc8\xc9\xca\xcb\xcc\xcd\xce\xcf\xd0\xd1\xd2\xd3\xd4\xd5\xd6\xd7\xd8\xd9\xda\xdb\xdc\xdd\xde\xdf\xe0\xe1\xe2\xe3\xe4\xe5\xe6\xe7\xe8\xe9\xea\xeb\xec\xed\xee\xef\xf0\xf1\xf2\xf3\xf4\xf5\xf6\xf7\xf8\xf9\xfa\xfb\xfc\xfd\xfe\xff - always
ok edit=2 rules=1
> assess execute 1111111111111111111111111111111111111111 com.example.app 0
rejected at=0 rule=2 latent=none label=%80%81%82%83%84%85%86%87%88%89%8A%8B%8C%8D%8E%8F%90%91%92%93%94%95%96%97%98%99%9A%9B%9C%9D%9E%9F%A0%A1%A2%A3%A4%A5%A6%A7%A8%A9%AA%AB%AC%AD%AE%AF%B0%B1%B2%B3%B4%B5%B6%B7%B8%B9%BA%BB%BC%BD%BE%BF%C0%C1%C2%C3%C4%C5%C6%C7%C8%C9%CA%CB%CC%CD%CE%CF%D0%D1%D2%D3%D4%D5%D6%D7%D8%D9%DA%DB%DC%DD%DE%DF%E0%E1%E2%E3%E4%E5%E6%E7%E8%E9%EA%EB%EC%ED%EE%EF%F0%F1%F2%F3%F4%F5%F6%F7%F8%F9%FA%FB%FC%FD%FE%FF override=none source=rules cache=kept
> add b execute deny 1 never %80%81%82%83%84%85%86%87%88%89%8A%8B%8C%8D%8E%8F%90%91%92%93%94%95%96%97%98%99%9A%9B%9C%9D%9E%9F%A0%A1%A2%A3%A4%A5%A6%A7%A8%A9%AA%AB%AC%AD%AE%AF%B0%B1%B2%B3%B4%B5%B6%B7%B8%B9%BA%BB%BC%BD%BE%BF%C0%C1%C2%C3%C4%C5%C6%C7%C8%C9%CA%CB%CC%CD%CE%CF%D0%D1%D2%D3%D4%D5%D6%D7%D8%D9%DA%DB%DC%DD%DE%DF%E0%E1%E2%E3%E4%E5%E6%E7%E8%E9%EA%EB%EC%ED%EE%EF%F0%F1%F2%F3%F4%F5%F6%F7%F8%F9%FA%FB%FC%FD%FE%FF - always
repeated edit=2 rules=1
> remove c label %80%81%82%83%84%85%86%87%88%89%8a%8b%8c%8d%8e%8f%90%91%92%93%94%95%96%97%98%99%9a%9b%9c%9d%9e%9f%a0%a1%a2%a3%a4%a5%a6%a7%a8%a9%aa%ab%ac%ad%ae%af%b0%b1%b2%b3%b4%b5%b6%b7%b8%b9%ba%bb%bc%bd%be%bf%c0%c1%c2%c3%c4%c5%c6%c7%c8%c9%ca%cb%cc%cd%ce%cf%d0%d1%d2%d3%d4%d5%d6%d7%d8%d9%da%db%dc%dd%de%df%e0%e1%e2%e3%e4%e5%e6%e7%e8%e9%ea%eb%ec%ed%ee%ef%f0%f1%f2%f3%f4%f5%f6%f7%f8%f9%fa%fb%fc%fd%fe%ff execute
ok edit=3 rules=1
> assess execute 1111111111111111111111111111111111111111 com.example.app 0
accepted at=0 rule=1 latent=none label=%00%01%02%03%04%05%06%07%08%09%0A%0B%0C%0D%0E%0F%10%11%12%13%14%15%16%17%18%19%1A%1B%1C%1D%1E%1F%20!\"#$%25&'()*+,-./0123456789:;<=>?@ABCDEFGHIJKLMNOPQRSTUVWXYZ[\\]^_`abcdefghijklmnopqrstuvwxyz{|}~%7F override=none source=rules cache=kept
> remove d label %00%01%02%03%04%05%06%07%08%09%0A%0B%0C%0D%0E%0F%10%11%12%13%14%15%16%17%18%19%1A%1B%1C%1D%1E%1F%20!\"#$%25&'()*+,-./0123456789:;<=>?@ABCDEFGHIJKLMNOPQRSTUVWXYZ[\\]^_`abcdefghijklmnopqrstuvwxyz{|}~%7F any
ok edit=4 rules=1
> add e execute allow 0 never %2d - always
ok edit=5 rules=1
> assess execute 1111111111111111111111111111111111111111 com.example.app 0
accepted at=0 rule=5 latent=none label=%2D override=none source=rules cache=kept
> add f execute allow 1 never - - always
ok edit=6 rules=1
> assess execute 1111111111111111111111111111111111111111 com.example.app 0
accepted at=0 rule=6 latent=none label=- override=none source=rules cache=kept
> disable g label %2D any
ok edit=7 rules=1
> disable h label -- any
refused edit 11 NoRule";

#[test]
fn edits_are_answered(rt: HostRuntime) -> Result<(), Fail> {
    for transcript in [REPEATS, SWITCHES, DISABLED, KINDS, LABELS] {
        let is = is_answered_so(rt.alloc(), transcript)?;
        assert!(rt; is);
    }
    Ok(())
}
