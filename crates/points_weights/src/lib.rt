// The weights of an interior vertex by its valence (document 01, section 3): the tables of the source, 64 rows each.

#![tactic(auto)]

ghost use Rattle.std.specs.Prelude.{◌≡◌};
ghost use Rattle.scope.specs.Weights.{loop_rows, sqrt_rows};
ghost use Rattle.points_weights.specs.Tables.{table, found};

use scope::records::Weights;

// Loop's, as in `loop_subd.rs`. Row 0 is never read.
const LOOP: [Weights; 64] = [
    Weights {
        first: 1.7976931348623157e308,
        second: 1.7976931348623157e308,
    },
    Weights {
        first: 0.765625,
        second: 0.234375,
    },
    Weights {
        first: 0.390625,
        second: 0.3046875,
    },
    Weights {
        first: 0.4375,
        second: 0.1875,
    },
    Weights {
        first: 0.515625,
        second: 0.12109375,
    },
    Weights {
        first: 0.5795339053710855,
        second: 0.08409321892578289,
    },
    Weights {
        first: 0.625,
        second: 0.0625,
    },
    Weights {
        first: 0.6568255586623777,
        second: 0.0490249201910889,
    },
    Weights {
        first: 0.6794575214724776,
        second: 0.0400678098159403,
    },
    Weights {
        first: 0.6959348386369,
        second: 0.03378501792923334,
    },
    Weights {
        first: 0.7082224675195198,
        second: 0.02917775324804802,
    },
    Weights {
        first: 0.7175917565621553,
        second: 0.025673476676167695,
    },
    Weights {
        first: 0.7248797632095823,
        second: 0.02292668639920148,
    },
    Weights {
        first: 0.7306500281453254,
        second: 0.020719228604205737,
    },
    Weights {
        first: 0.735290719039789,
        second: 0.01890780578287221,
    },
    Weights {
        first: 0.7390751047567019,
        second: 0.017394993016219874,
    },
    Weights {
        first: 0.7421994992579459,
        second: 0.01611253129637838,
    },
    Weights {
        first: 0.7448075716764623,
        second: 0.015011319313149278,
    },
    Weights {
        first: 0.7470062552448259,
        second: 0.014055208041954117,
    },
    Weights {
        first: 0.7488763737375063,
        second: 0.01321703296118388,
    },
    Weights {
        first: 0.7504798778795585,
        second: 0.012476006106022074,
    },
    Weights {
        first: 0.7518648627822762,
        second: 0.011815958915129706,
    },
    Weights {
        first: 0.7530691054536927,
        second: 0.011224131570286698,
    },
    Weights {
        first: 0.7541225977697901,
        second: 0.010690321836096084,
    },
    Weights {
        first: 0.755049386297464,
        second: 0.010206275570939,
    },
    Weights {
        first: 0.755868926462989,
        second: 0.00976524294148044,
    },
    Weights {
        first: 0.7565970915690476,
        second: 0.009361650324267399,
    },
    Weights {
        first: 0.7572469332438236,
        second: 0.008990854324302829,
    },
    Weights {
        first: 0.7578292606560425,
        second: 0.00864895497656991,
    },
    Weights {
        first: 0.7583530860603586,
        second: 0.008332652204815221,
    },
    Weights {
        first: 0.7588259706889198,
        second: 0.008039134310369341,
    },
    Weights {
        first: 0.7592542955979749,
        second: 0.007765990464581456,
    },
    Weights {
        first: 0.7596434754665834,
        second: 0.007511141391669269,
    },
    Weights {
        first: 0.7599981286435098,
        second: 0.007272783980499703,
    },
    Weights {
        first: 0.7603222133596177,
        second: 0.007049346665893597,
    },
    Weights {
        first: 0.7606191375697349,
        second: 0.006839453212293289,
    },
    Weights {
        first: 0.7608918480893487,
        second: 0.006641893108629202,
    },
    Weights {
        first: 0.7611429033608542,
        second: 0.0064555972064634,
    },
    Weights {
        first: 0.7613745331911552,
        second: 0.006279617547601178,
    },
    Weights {
        first: 0.761588688055457,
        second: 0.00611311056268059,
    },
    Weights {
        first: 0.761787079995812,
        second: 0.005955323000104701,
    },
    Weights {
        first: 0.7619712167105319,
        second: 0.005805580080230929,
    },
    Weights {
        first: 0.7621424300980284,
        second: 0.005663275473856467,
    },
    Weights {
        first: 0.7623019002612208,
        second: 0.005527862784622772,
    },
    Weights {
        first: 0.762450675778128,
        second: 0.005398848277769819,
    },
    Weights {
        first: 0.7625896908871168,
        second: 0.0052757846469529595,
    },
    Weights {
        first: 0.7627197801114307,
        second: 0.0051582656497515065,
    },
    Weights {
        first: 0.7628416907494706,
        second: 0.005045921473415519,
    },
    Weights {
        first: 0.7629560935791229,
        second: 0.004938414717101607,
    },
    Weights {
        first: 0.7630635920618283,
        second: 0.004835436896697382,
    },
    Weights {
        first: 0.7631647302817344,
        second: 0.004736705394365313,
    },
    Weights {
        first: 0.763259999814582,
        second: 0.004641960787949372,
    },
    Weights {
        first: 0.7633498456879493,
        second: 0.004550964506000976,
    },
    Weights {
        first: 0.7634346715675473,
        second: 0.004463496762876466,
    },
    Weights {
        first: 0.7635148442822338,
        second: 0.004379354735514189,
    },
    Weights {
        first: 0.763590697782301,
        second: 0.0042983509494127084,
    },
    Weights {
        first: 0.7636625366106651,
        second: 0.004220311846238124,
    },
    Weights {
        first: 0.7637306389542229,
        second: 0.004145076509575037,
    },
    Weights {
        first: 0.7637952593323827,
        second: 0.004072495528752023,
    },
    Weights {
        first: 0.763856630971209,
        second: 0.004002429983538829,
    },
    Weights {
        first: 0.7639149679044828,
        second: 0.003934750534925287,
    },
    Weights {
        first: 0.7639704668369653,
        second: 0.0038693366092300762,
    },
    Weights {
        first: 0.7640233088001207,
        second: 0.0038060756645141823,
    },
    Weights {
        first: 0.7640736606262798,
        second: 0.0037448625297415907,
    },
];

// sqrt3's, as in `sqrt3.rs`.
const SQRT: [Weights; 64] = [
    Weights {
        first: 1.7976931348623157e308,
        second: 1.7976931348623157e308,
    },
    Weights {
        first: 0.7777777777777778,
        second: 0.2222222222222222,
    },
    Weights {
        first: 0.33333333333333337,
        second: 0.3333333333333333,
    },
    Weights {
        first: 0.4444444444444444,
        second: 0.1851851851851852,
    },
    Weights {
        first: 0.5555555555555556,
        second: 0.1111111111111111,
    },
    Weights {
        first: 0.6242259987499883,
        second: 0.07515480025000235,
    },
    Weights {
        first: 0.6666666666666667,
        second: 0.05555555555555555,
    },
    Weights {
        first: 0.6941088448574964,
        second: 0.04369873644892909,
    },
    Weights {
        first: 0.7126903958192328,
        second: 0.035913700522595904,
    },
    Weights {
        first: 0.7257876540264395,
        second: 0.03046803844150672,
    },
    Weights {
        first: 0.7353371098610995,
        second: 0.026466289013890053,
    },
    Weights {
        first: 0.7425007850735958,
        second: 0.023409019538764012,
    },
    Weights {
        first: 0.7480056452854309,
        second: 0.02099952955954743,
    },
    Weights {
        first: 0.7523235612562689,
        second: 0.01905203374951778,
    },
    Weights {
        first: 0.7557708595338709,
        second: 0.017444938604723507,
    },
    Weights {
        first: 0.7585656572539112,
        second: 0.016095622849739248,
    },
    Weights {
        first: 0.7608621183358415,
        second: 0.014946117604009906,
    },
    Weights {
        first: 0.7627716065343013,
        second: 0.01395461138033522,
    },
    Weights {
        first: 0.7643761379524241,
        second: 0.013090214558198662,
    },
    Weights {
        first: 0.7657371648223632,
        second: 0.012329622904086146,
    },
    Weights {
        first: 0.7669014480655897,
        second: 0.011654927596720516,
    },
    Weights {
        first: 0.7679050679524757,
        second: 0.011052139621310682,
    },
    Weights {
        first: 0.7687762163587772,
        second: 0.010510171983691944,
    },
    Weights {
        first: 0.7695371749661777,
        second: 0.010020122827557494,
    },
    Weights {
        first: 0.7702057391753485,
        second: 0.009574760867693813,
    },
    Weights {
        first: 0.7707962580285846,
        second: 0.009168149678856614,
    },
    Weights {
        first: 0.771320403872456,
        second: 0.008795369081828614,
    },
    Weights {
        first: 0.7717877490177386,
        second: 0.008452305591935607,
    },
    Weights {
        first: 0.7722062027070719,
        second: 0.008135492760461719,
    },
    Weights {
        first: 0.7725823457133526,
        second: 0.00784198807884991,
    },
    Weights {
        first: 0.7729216890519568,
        second: 0.0075692770316014395,
    },
    Weights {
        first: 0.7732288758338877,
        second: 0.00731519755374556,
    },
    Weights {
        first: 0.7735078400896067,
        second: 0.0070778799971997885,
    },
    Weights {
        first: 0.7737619327250459,
        second: 0.006855699008331943,
    },
    Weights {
        first: 0.7739940221519782,
        second: 0.006647234642588876,
    },
    Weights {
        first: 0.7742065752441399,
        second: 0.006451240707310287,
    },
    Weights {
        first: 0.7744017228916018,
        second: 0.006266618808566616,
    },
    Weights {
        first: 0.7745813134106019,
        second: 0.006092396934848598,
    },
    Weights {
        first: 0.7747469563117161,
        second: 0.005927711676007472,
    },
    Weights {
        first: 0.7749000583639806,
        second: 0.005771793375282549,
    },
    Weights {
        first: 0.7750418534655862,
        second: 0.005623953663360345,
    },
    Weights {
        first: 0.7751734275067441,
        second: 0.005483574938859899,
    },
    Weights {
        first: 0.7752957391611397,
        second: 0.005350101448544294,
    },
    Weights {
        first: 0.7754096373500245,
        second: 0.005223031689534314,
    },
    Weights {
        first: 0.7755158759735407,
        second: 0.005101911909692259,
    },
    Weights {
        first: 0.7756151263870157,
        second: 0.004986330524732986,
    },
    Weights {
        first: 0.7757079880080735,
        second: 0.004875913304172316,
    },
    Weights {
        first: 0.775794997367729,
        second: 0.004770319204941938,
    },
    Weights {
        first: 0.7758766358608468,
        second: 0.0046692367528990255,
    },
    Weights {
        first: 0.7759533364051658,
        second: 0.004572380889690494,
    },
    Weights {
        first: 0.7760254891809951,
        second: 0.004479490216380098,
    },
    Weights {
        first: 0.7760934465937636,
        second: 0.004390324576592872,
    },
    Weights {
        first: 0.7761575275773454,
        second: 0.004304662931204898,
    },
    Weights {
        first: 0.7762180213363371,
        second: 0.004222301484220055,
    },
    Weights {
        first: 0.7762751906093207,
        second: 0.004143052025753321,
    },
    Weights {
        first: 0.7763292745219,
        second: 0.004066740463238181,
    },
    Weights {
        first: 0.7763804910873873,
        second: 0.003993205516296656,
    },
    Weights {
        first: 0.7764290394039888,
        second: 0.003922297554315986,
    },
    Weights {
        first: 0.7764751015898577,
        second: 0.003853877558795557,
    },
    Weights {
        first: 0.7765188444911416,
        second: 0.003787816195065397,
    },
    Weights {
        first: 0.7765604211929497,
        second: 0.003723992980117506,
    },
    Weights {
        first: 0.7765999723587975,
        second: 0.003662295535101679,
    },
    Weights {
        first: 0.7766376274204211,
        second: 0.003602618912573853,
    },
    Weights {
        first: 0.7766735056367559,
        second: 0.0035448649898927637,
    },
];

// Two functions, since docs/PROOFS.md names both. A loop over vertices takes its table once, and lends it: a constant that is indexed, or a table that goes by
// value into a function called for each vertex, would be made anew at each vertex.
pub fn loop_table() -> [Weights; 64]
    ensures { result ≡ table loop_rows }
{
    LOOP
}

pub fn sqrt_table() -> [Weights; 64]
    ensures { result ≡ table sqrt_rows }
{
    SQRT
}

// The row for valence n, which has one where it is below 64.
#[tactic(auto, unfolding(crate::specs::Tables::found))]
pub fn find(n: u32) -> Option<usize>
    ensures { result ≡ found n }
{
    if n < 64 { Some(n as usize) } else { None }
}
