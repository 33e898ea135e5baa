//! Generated loads, against texts that another program drew.
use roc_generate::generate;
use std::process::Abort;
use std::test::Fail;

const WORKLOAD: &str = "shards 2;\n\
     table acct { bal }\n\
     table ctr { n }\n\
     init acct[0,0].bal = 1000;\n\
     init acct[1,0].bal = 1000;\n\
     proc pay(f,t,n) {\n  \
     later take at f {\n    \
     get b = acct[0].bal;\n    \
     set acct[0].bal = b - n;\n    \
     out b;\n  \
     }\n  \
     later give at t {\n    \
     get d = acct[0].bal;\n    \
     set acct[0].bal = d + n;\n    \
     out d;\n  \
     }\n\
     }\n\
     proc mark(p,q) {\n  \
     now r at p {\n    \
     get u = ctr[0].n;\n  \
     }\n  \
     now w at p {\n    \
     set ctr[0].n = u + 1;\n  \
     }\n  \
     later l at q {\n    \
     get b = acct[0].bal;\n    \
     set acct[0].bal = b + u;\n    \
     out b;\n  \
     }\n\
     }\n";

const PAYMENT: &str =
    "submit 0 pay 1 0 70\nany 15194\nany 49395\nany 23194\nany 43254\nany 9513\nany 31674\n\
     any 16891\nany 46322\nany 48508\nany 4896\nany 44218\nany 28684\nany 13594\nany 1567\n\
     any 27860\nany 25141\nany 14699\nany 15757\nany 19422\nany 56162\n";

const MARK: &str =
    "submit 0 mark 0 0\nany 42605\nany 16283\nany 18872\nany 48071\nany 11744\nany 29851\n\
     any 4431\nany 42706\nany 54534\nany 34877\nany 26932\nany 22814\nany 21833\nany 6674\n\
     any 16795\nany 22819\nany 23342\nany 45877\nany 64719\nany 18794\n";

#[test]
fn loads_of_one_transaction(rt: HostRuntime) -> Result<(), Fail> {
    let alloc = rt.alloc();
    let (workload, payment) = generate(alloc, 1, 2, 1)?;
    assert_eq!(rt; workload.as_slice(), WORKLOAD.as_bytes());
    assert_eq!(rt; payment.as_slice(), PAYMENT.as_bytes());
    let (_, mark) = generate(alloc, 0, 1, 1)?;
    assert_eq!(rt; mark.as_slice(), MARK.as_bytes());
    Ok(())
}
